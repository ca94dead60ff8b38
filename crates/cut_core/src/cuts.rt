//! The cut and the ideal cut.

ghost use Rattle.std.specs.Prelude.{◌≡◌, ◌++◌, All, IfOk, IsTrue, OnOk};
ghost use Rattle.std.specs.List.{flat_map};
ghost use Rattle.cut_core.specs.Cut.{cut as cut_of, ideal as ideal_of, lines_of, with_all};
ghost use Rattle.cut_core.specs.Laws.{BecomesReady, CoversIdeal, HasIdeal, IsLoaded, OfEachNode, OfRoot};
ghost use Rattle.cut_core.specs.Laws.{ShowsAtPlaces, ShowsNoneBelow, ShowsWhatStays};
ghost use Rattle.cut_core.specs.WholeWalk.{WalksWhole};

use crate::error::CutError;
use crate::findings::Findings;
use crate::holdings::Holdings;
use crate::line::{CutLine, CutList};
use crate::walk::walk_whole;
use error_test::View;
use expanded_tree::{Node, TileTree};
use std::alloc::{AllocError, Global};
use tile_types::Text;

/// Adds the lines of a tile.
fn push_lines<T: TileTree, H: Holdings>(
    alloc: Global,
    tree: &T,
    holdings: &H,
    node: Node,
    lines: &mut Vec<CutLine>,
) -> Result<(), AllocError>
    requires { IsTrue ((T.standing tree.now).is_valid node) }
    ensures { let t = (T.standing tree.now).node_tree node in
        OnOk result (lines.new.items ≡ lines.old.items ++ lines_of (H.holdings holdings.now) t) }
{
    for i in 0..tree.content_count(node) {
        let address = tree.content(node, i);
        if !holdings.absent(address) {
            let tile = tree.name(alloc, node)?;
            let address = address.copy(alloc)?;
            lines.push(CutLine { tile, address })?;
        }
    }
    Ok(())
}

/// The lines of the tiles that these nodes stand for.
pub fn lines_shown<T: TileTree, H: Holdings>(
    alloc: Global,
    tree: &T,
    holdings: &H,
    shown: &[Node],
) -> Result<CutList, AllocError>
    requires { All (λ n. IsTrue ((T.standing tree.now).is_valid n)) shown.now }
    ensures { let s = T.standing tree.now in
        IfOk result (λ lines. lines
        ≡ flat_map (λ n. lines_of (H.holdings holdings.now) (s.node_tree n)) shown.now) }
{
    let mut lines = Vec::with_capacity(alloc, shown.len())?;
    for node in shown {
        push_lines(alloc, tree, holdings, *node, &mut lines)?;
    }
    Ok(CutList::from_vec(lines))
}

/// The lines of a walk from the root.
fn walked_lines<T: TileTree, H: Holdings>(
    alloc: Global,
    tree: &mut T,
    holdings: &H,
    view: &View,
) -> Result<CutList, CutError>
    ensures lines { let root = (T.standing tree.old).tree in
        IfOk result (λ lines. lines ≡ cut_of view.now (H.holdings holdings.now) root) }
    ensures basis { T.basis tree.new ≡ T.basis tree.old }
    ensures walk { WalksWhole result view.now (T.standing tree.old) (T.standing tree.new) }
{
    let found = walk_whole(alloc, tree, holdings, view)?;
    // The lines take memory, and none of them needs the notes.
    let Findings { shown, visits } = found;
    drop(visits);
    Ok(lines_shown(alloc, tree, holdings, &shown)?)
}

/// The lines of the tiles that the view shows of the tree, while these contents are resident (OGC
/// 22-025r4, "Refinement"). A walk opens nodes of the tree, and the tree stays the same.
///
/// Errors: `TooLarge` where the view visits more than 65,536 nodes, or `OutOfMemory`.
pub fn cut<T: TileTree, H: Holdings>(
    alloc: Global,
    tree: &mut T,
    holdings: &H,
    view: &View,
) -> Result<CutList, CutError>
    ensures lines { let root = (T.standing tree.old).tree in
        IfOk result (λ lines. lines ≡ cut_of view.now (H.holdings holdings.now) root) }
    ensures basis { T.basis tree.new ≡ T.basis tree.old }
    ensures walk { WalksWhole result view.now (T.standing tree.old) (T.standing tree.new) }

    // The laws of the cut, said of the places that are shown.
    ensures places { OfRoot (ShowsAtPlaces view.now (H.holdings holdings.now))
        (T.standing tree.old).tree }
    ensures alone { OfRoot (ShowsNoneBelow view.now (H.holdings holdings.now))
        (T.standing tree.old).tree }
    ensures covers { OfEachNode (CoversIdeal view.now (H.holdings holdings.now))
        (T.standing tree.old).tree }
    ensures settles { let root = (T.standing tree.old).tree in let h = H.holdings holdings.now in
        IfOk result (λ lines.
        IsLoaded view.now root → HasIdeal view.now h root → lines ≡ ideal_of view.now h root) }
{
    walked_lines(alloc, tree, holdings, view)
}

/// Holdings in which every content that isn't absent is resident.
#[derive(Drop)]
pub(crate) struct AllResident<'a, H> {
    pub(crate) holdings: &'a H,
}

impl<H: Holdings> Holdings for AllResident<'_, H> {
    ghost holdings = { λ s. with_all (H.holdings s.holdings.now) };

    fn resident(&self, address: &Text) -> bool {
        !self.holdings.absent(address)
    }

    fn absent(&self, address: &Text) -> bool {
        self.holdings.absent(address)
    }
}

/// The cut as it is once every content that isn't absent is resident.
///
/// Errors: `TooLarge` where the view visits more than 65,536 nodes, or `OutOfMemory`.
pub fn ideal<T: TileTree, H: Holdings>(
    alloc: Global,
    tree: &mut T,
    holdings: &H,
    view: &View,
) -> Result<CutList, CutError>
    ensures lines { let root = (T.standing tree.old).tree in
        IfOk result (λ lines. lines ≡ ideal_of view.now (H.holdings holdings.now) root) }
    ensures basis { T.basis tree.new ≡ T.basis tree.old }
    ensures walk { WalksWhole result view.now (T.standing tree.old) (T.standing tree.new) }

    // Once no visited node is pending.
    ensures ready { let root = (T.standing tree.old).tree in
        IsLoaded view.now root → BecomesReady view.now (H.holdings holdings.now) root }
    ensures stays { let root = (T.standing tree.old).tree in
        IsLoaded view.now root → ShowsWhatStays view.now (H.holdings holdings.now) root }
{
    walked_lines(alloc, tree, &AllResident { holdings }, view)
}
