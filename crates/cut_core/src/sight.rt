//! What a look at a tree of loaded documents gives.

ghost use Rattle.std.specs.Prelude.{◌≡◌, IfOk};
ghost use Rattle.cut_core.specs.Sights.{Sees};
ghost use Rattle.cut_core.specs.WholeWalk.{WalksWhole};

use crate::cuts::{AllResident, lines_shown};
use crate::error::CutError;
use crate::findings::Findings;
use crate::holdings::Holdings;
use crate::line::CutList;
use crate::walk::{Context, walk_whole};
use crate::wants::wants_of_visits;
use error_test::View;
use expanded_tree::TileTree;
use std::alloc::Global;
use tile_types::WantList;

/// What a look at a tree of loaded documents gives: the lines of its ideal cut, or, where visited
/// nodes wait for documents, what they want.
#[derive(Drop)]
pub enum Sight {
    Lines(CutList),
    Awaits(WantList),
}

/// The ideal cut of a view, or what the view wants where visited nodes are pending, by one walk.
///
/// Errors: `TooLarge` where the view visits more than 65,536 nodes, or `OutOfMemory`.
pub fn ideal_or_want<T: TileTree, H: Holdings>(
    alloc: Global,
    tree: &mut T,
    holdings: &H,
    view: &View,
) -> Result<Sight, CutError>
    ensures sees { let root = (T.standing tree.old).tree in
        IfOk result (Sees view.now (H.holdings holdings.now) root) }
    ensures basis { T.basis tree.new ≡ T.basis tree.old }
    ensures walk { WalksWhole result view.now (T.standing tree.old) (T.standing tree.new) }
{
    let all = AllResident { holdings };
    let found = walk_whole(alloc, tree, &all, view)?;
    let context = Context {
        alloc,
        holdings: &all,
        view,
    };
    let Findings { shown, visits } = found;
    let wants = wants_of_visits(tree, &context, &visits)?.into_list(alloc)?;
    if !wants.is_empty() {
        return Ok(Sight::Awaits(wants));
    }
    // The lines take memory, and none of them needs the notes.
    drop(visits);
    Ok(Sight::Lines(lines_shown(alloc, tree, &all, &shown)?))
}
