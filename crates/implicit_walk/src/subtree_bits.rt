//! The bits of a subtree that is at hand.

ghost use Rattle.std.specs.Prelude.{◌≡◌, ◌≤◌, ◌+◌};
ghost use Rattle.implicit_walk.specs.Places.{IsPlace};
ghost use Rattle.implicit_walk.specs.Presences as presences;
ghost use Rattle.implicit_walk.specs.Presences.{IsOfRoot};

use crate::implicit_root::ImplicitRoot;
use crate::numbers::{child_subtree_number, tile_number};
use crate::place::Place;
use std::sync::ledger::Ledger;
use subtree_binary::Subtree;
use tile_types::Steps;

/// The bit of a tile that is in the subtree, which counts as one step.
#[inline]
pub fn has_tile<L: Ledger>(
    root: &ImplicitRoot,
    subtree: &Subtree,
    at: Place,
    steps: &mut Steps<L>,
) -> bool
    requires place { IsPlace root.now.part at }
    requires subtree { IsOfRoot root.now.part subtree.now }
    ensures value { result ≡ presences.has_tile root.now.part subtree.now at }
    ensures step { steps.new ≡ steps.old + 1 }
{
    subtree.tiles().bit(tile_number(root, at), steps)
}

/// The bit of the child subtree that begins with a tile: the subtree is that of the tile's parent.
/// It counts as one step.
#[inline]
pub fn has_child_subtree<L: Ledger>(
    root: &ImplicitRoot,
    subtree: &Subtree,
    at: Place,
    steps: &mut Steps<L>,
) -> bool
    requires place { IsPlace root.now.part at }
    requires subtree { IsOfRoot root.now.part subtree.now }
    ensures value { result ≡ presences.has_child_subtree root.now.part subtree.now at }
    ensures step { steps.new ≡ steps.old + 1 }
{
    subtree
        .children()
        .bit(child_subtree_number(root, at), steps)
}

/// The bit of one of the contents of a tile that is in the subtree. It reads at most one bit.
#[inline]
pub(crate) fn has_content<L: Ledger>(
    root: &ImplicitRoot,
    subtree: &Subtree,
    at: Place,
    which: u32,
    steps: &mut Steps<L>,
) -> bool
    requires place { IsPlace root.now.part at }
    requires subtree { IsOfRoot root.now.part subtree.now }
    ensures value { result ≡ presences.has_content root.now.part subtree.now at which }
    ensures step { steps.new ≤ steps.old + 1 }
{
    match subtree.content(which) {
        Some(bits) => bits.bit(tile_number(root, at), steps),
        None => false,
    }
}
