//! Where the children of a node stand.

ghost use Rattle.std.specs.Prelude.{◌≡◌, ◌<◌, ℕ, OnOk, length};
ghost use Rattle.tile_arena.specs.Children.{children_at};

use std::alloc::AllocError;

/// Where the children of a node stand among all nodes, once it was opened.
#[derive(Clone, Copy, Debug)]
pub(crate) struct Children {
    pub(crate) at_hand: bool,
    pub(crate) first: u32,
    pub(crate) count: u32,
}

/// What is known of the children of a node that wasn't opened.
pub(crate) const CLOSED: Children = Children {
    at_hand: false,
    first: 0,
    count: 0,
};

/// Makes room for what is known of the children of the node at a place.
pub(crate) fn make_room(children: &mut Vec<Children>, place: usize) -> Result<(), AllocError>
    ensures same { (at : ℕ) → children_at children.new.items at
        ≡ children_at children.old.items at }
    ensures there { OnOk result (place < length children.new.items) }
{
    while children.len() <= place {
        children.push(CLOSED)?;
    }
    Ok(())
}
