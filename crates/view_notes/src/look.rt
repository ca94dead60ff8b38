//! One walk gives what a view shows and the notes.

ghost use Rattle.std.specs.Prelude.{◌≡◌, IfOk};
ghost use Rattle.cut_core.specs.Cut.{cut as cut_of};
ghost use Rattle.cut_core.specs.WholeWalk.{WalksWhole};
ghost use Rattle.view_notes.specs.Follows.{AreNotesOf};
ghost use Rattle.view_notes.specs.Visited.{AreVisitsOf};

use crate::note_lists::NoteLists;
use crate::view_notes::ViewNotes;
use cut_core::{CutError, CutList, Holdings, Visit, lines_shown, walk_whole};
use error_test::View;
use expanded_tree::TileTree;
use std::alloc::{AllocError, Global};

/// What a look at a tree finds.
#[derive(Drop)]
pub struct Look {
    /// The lines of the tiles that the view shows.
    pub lines: CutList,
    /// The notes of the nodes that it visits.
    pub notes: ViewNotes,
}

/// The notes of the nodes that a walk has visited.
fn notes_found<T: TileTree, H: Holdings>(
    alloc: Global,
    tree: &T,
    holdings: &H,
    view: &View,
    visits: &[Visit],
) -> Result<ViewNotes, AllocError>
    requires { AreVisitsOf (T.standing tree.now) view.now (H.holdings holdings.now) visits.now }
    ensures { IfOk result (λ notes.
        AreNotesOf notes view.now (H.holdings holdings.now) (T.standing tree.now).tree) }
{
    let lists = NoteLists::from_visits(alloc, tree, holdings, view, visits)?;
    Ok(ViewNotes::from_lists(alloc, lists)?)
}

/// The lines of the tiles that the view shows of the tree, while these contents are resident (OGC
/// 22-025r4, "Refinement"), with the notes of the nodes that it visits: one walk finds both. A
/// walk opens nodes of the tree, and the tree stays the same.
///
/// Errors: `TooLarge` where the view visits more than 65,536 nodes, or `OutOfMemory`.
pub fn look_at<T: TileTree, H: Holdings>(
    alloc: Global,
    tree: &mut T,
    holdings: &H,
    view: &View,
) -> Result<Look, CutError>
    ensures lines { let root = (T.standing tree.old).tree in
        IfOk result (λ look. look.lines ≡ cut_of view.now (H.holdings holdings.now) root) }
    ensures notes { let root = (T.standing tree.old).tree in
        IfOk result (λ look. AreNotesOf look.notes view.now (H.holdings holdings.now) root) }
    ensures basis { T.basis tree.new ≡ T.basis tree.old }
    ensures walk { WalksWhole result view.now (T.standing tree.old) (T.standing tree.new) }
{
    let found = walk_whole(alloc, tree, holdings, view)?;
    let lines = lines_shown(alloc, tree, holdings, &found.shown)?;
    let notes = notes_found(alloc, tree, holdings, view, &found.visits)?;
    Ok(Look { lines, notes })
}
