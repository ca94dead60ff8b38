//! The walk over the visited nodes.

ghost use Rattle.std.specs.Prelude.{◌≡◌, ◌<◌, ◌≤◌, ◌∷◌, ◌++◌, ◌||◌, [], IfOk, IsTrue, None, OnErr, OnOk};
ghost use Rattle.std.specs.Prelude.{Some, if◌then◌else◌, length, take};
ghost use Rattle.std.specs.List.{list_all};
ghost use Rattle.expanded_tree.specs.Standing.{Keeps};
ghost use Rattle.expanded_tree.specs.Tree.{children_of, facts_of, from_list};
ghost use Rattle.cut_core.specs.Cut.{from_root, has_own, is_ready, lacks_own, shown_tiles};
ghost use Rattle.cut_core.specs.Distances.{measured_visits};
ghost use Rattle.cut_core.specs.Linked.{all_linked_nodes, linked_nodes};
ghost use Rattle.cut_core.specs.Links.{LinksMore};
ghost use Rattle.cut_core.specs.Opened.{OpensEach};
ghost use Rattle.cut_core.specs.Visits.{keeps_own, visits};
ghost use Rattle.cut_core.specs.Walk.{IsAnyValid, IsWanting, NotesMore, ShowsMore};
ghost use Rattle.cut_core.specs.Walk.{WalksChildren, WalksNode, WalksTile, found_in, with_shown};
ghost use Rattle.cut_core.specs.WholeWalk.{WalksWhole};
ghost use Rattle.cut_core.specs.declared.findings.TheConstants.{VISITED_LIMIT};

use crate::error::CutError;
use crate::findings::{Findings, Visit};
use crate::holdings::Holdings;
use crate::node_kind::{NodeKind, kind_of};
use crate::own::own_of;
use error_test::View;
use expanded_tree::{Node, TileTree};
use std::alloc::{AllocError, Global};
use tile_types::Refine;

/// What a walk is given beside the tree.
#[derive(Drop)]
pub struct Context<'a, H> {
    pub alloc: Global,
    pub holdings: &'a H,
    pub view: &'a View,
}

/// A tile that wants its children, which are at hand.
#[derive(Clone, Copy)]
struct WantingTile {
    node: Node,
    /// Its number among the visited nodes.
    number: u32,
    /// The node by whose volume those of its children are measured that have none.
    measured_by: Option<Node>,
    refine: Refine,
    count: u32,
}

/// Whether a tile whose children were walked is ready, and whether its own contents are kept.
#[derive(Clone, Copy)]
struct TileState {
    ready: bool,
    kept: bool,
}

/// The node by whose volume this one is measured: itself, or the nearest above it whose volume is
/// known.
fn measured_by(node: Node, has_volume: bool, above: Option<Node>) -> Option<Node>
    ensures { result ≡ (if has_volume then Some node else above) }
{
    if has_volume { Some(node) } else { above }
}

/// Opens the node if it may want its children, and answers how many it wants.
fn open_wanted<T: TileTree>(
    alloc: Global,
    tree: &mut T,
    node: Node,
    may_want: bool,
) -> Result<u32, AllocError>
    requires valid { IsTrue ((T.standing tree.old).is_valid node) }
    ensures basis { T.basis tree.new ≡ T.basis tree.old }
    ensures keeps { Keeps (T.standing tree.old) (T.standing tree.new) }
    ensures count { let children = children_of ((T.standing tree.old).node_tree node) in
        IfOk result (λ n. n ≡ (if may_want then length children else 0)) }
    ensures at_hand { IfOk result (λ n. 0 < n → IsTrue ((T.standing tree.new).at_hand node)) }
    ensures opens { let opened = if may_want then (T.standing tree.old).node_tree node ∷ [] else
        [] in
        OnOk result (OpensEach (T.standing tree.old) (T.standing tree.new) opened) }
    ensures err { OnErr result ((T.standing tree.new).opened ≡ (T.standing tree.old).opened) }
{
    if !may_want {
        return Ok(0);
    }
    tree.open_children(alloc, node)
}

/// Shows a tile that doesn't want its children, and answers whether it is ready.
fn show_tile<T: TileTree, H: Holdings>(
    tree: &T,
    holdings: &H,
    node: Node,
    found: &mut Findings,
) -> Result<bool, AllocError>
    requires { IsTrue ((T.standing tree.now).is_valid node) }
    ensures ready { let t = (T.standing tree.now).node_tree node in let h =
        H.holdings holdings.now in
        IfOk result (λ ready. ready ≡ (has_own h t || lacks_own h t)) }
    ensures shows { let t = (T.standing tree.now).node_tree node in let h =
        H.holdings holdings.now in
        let shown = if has_own h t then node ∷ [] else [] in
        OnOk result (found_in found.new ≡ with_shown (found_in found.old) shown) }
{
    let own = own_of(tree, holdings, node);
    found.show(node, own)?;
    Ok(own.resident | own.lacking)
}

/// Shows a tile in place of what its children show, if it has contents of its own, and answers
/// whether they are resident. `before` is how many nodes were shown before the children.
fn fall_back<T: TileTree, H: Holdings>(
    tree: &T,
    holdings: &H,
    node: Node,
    before: usize,
    found: &mut Findings,
) -> Result<bool, AllocError>
    requires valid { IsTrue ((T.standing tree.now).is_valid node) }
    requires before { before ≤ length found.old.shown.items }
    ensures ready { IfOk result (λ ready.
        ready ≡ has_own (H.holdings holdings.now) ((T.standing tree.now).node_tree node)) }
    ensures visits { OnOk result (found.new.visits.items ≡ found.old.visits.items) }
    ensures shows { let t = (T.standing tree.now).node_tree node in let h =
        H.holdings holdings.now in
        OnOk result (found.new.shown.items ≡ (if lacks_own h t then found.old.shown.items
        else take before found.old.shown.items ++ (if has_own h t then node ∷ [] else []))) }
{
    let own = own_of(tree, holdings, node);
    if own.lacking {
        return Ok(false);
    }
    found.shown.truncate(before);
    found.show(node, own)?;
    Ok(own.resident)
}

/// Walks the node, and answers whether it is ready.
#[cycle(walk)]
fn walk_node<T: TileTree, H: Holdings>(
    tree: &mut T,
    context: &Context<'_, H>,
    node: Node,
    above: Option<Node>,
    parent: Option<u32>,
    found: &mut Findings,
) -> Result<bool, CutError>
    requires valid { IsTrue ((T.standing tree.old).is_valid node) }
    requires above { IsAnyValid (T.standing tree.old) above }
    requires within { length found.old.visits.items ≤ VISITED_LIMIT }
    ensures basis { T.basis tree.new ≡ T.basis tree.old }
    ensures ready { let t = (T.standing tree.old).node_tree node in
        IfOk result (λ ready.
        ready ≡ is_ready context.now.view.now (H.holdings context.now.holdings.now) t) }
    ensures walk { WalksNode result (T.standing tree.old) (T.standing tree.new)
        context.now.view.now (H.holdings context.now.holdings.now)
        above node (found_in found.old) (found_in found.new) }
    ensures links { let t = (T.standing tree.old).node_tree node in
        let at = length found.old.visits.items in
        OnOk result (LinksMore context.now.view.now found.old.visits.items found.new.visits.items
        (linked_nodes context.now.view.now parent at t)) }
{
    match kind_of(tree, context.view, node) {
        NodeKind::Culled => Ok(true),
        NodeKind::Pending { has_volume } => {
            let measured_by = measured_by(node, has_volume, above);
            found.note(Visit {
                node,
                measured_by,
                parent,
                wants: false,
                kept: false,
            })?;
            Ok(false)
        }
        NodeKind::Tile {
            has_volume,
            may_want,
            refine,
        } => {
            // The note stands before those of the children, which decide whether the contents are
            // kept.
            let at = found.visits.len();
            let measured_by = measured_by(node, has_volume, above);
            found.note(Visit {
                node,
                measured_by,
                parent,
                wants: false,
                kept: true,
            })?;
            let count = open_wanted(context.alloc, tree, node, may_want)?;
            if count == 0 {
                return Ok(show_tile(tree, context.holdings, node, found)?);
            }
            let tile = WantingTile {
                node,
                number: at as u32,
                measured_by,
                refine,
                count,
            };
            let state = walk_tile(tree, context, tile, found)?;
            found.note_again(
                at,
                Visit {
                    node,
                    measured_by,
                    parent,
                    wants: true,
                    kept: state.kept,
                },
            );
            Ok(state.ready)
        }
    }
}

/// Walks the children of a tile that wants them, and answers whether the tile is ready and kept.
#[cycle(walk)]
fn walk_tile<T: TileTree, H: Holdings>(
    tree: &mut T,
    context: &Context<'_, H>,
    tile: WantingTile,
    found: &mut Findings,
) -> Result<TileState, CutError>
    requires valid { IsTrue ((T.standing tree.old).is_valid tile.node) }
    requires at_hand { IsTrue ((T.standing tree.old).at_hand tile.node) }
    requires above { IsAnyValid (T.standing tree.old) tile.measured_by }
    requires within { length found.old.visits.items ≤ VISITED_LIMIT }
    requires wanting { IsWanting context.now.view.now ((T.standing tree.old).node_tree tile.node) }
    requires refine { tile.refine ≡ (facts_of ((T.standing tree.old).node_tree tile.node)).refine }
    requires count { tile.count ≡ length (children_of ((T.standing tree.old).node_tree tile.node)) }
    ensures basis { T.basis tree.new ≡ T.basis tree.old }
    ensures ready { let t = (T.standing tree.old).node_tree tile.node in
        IfOk result (λ state.
        state.ready ≡ is_ready context.now.view.now (H.holdings context.now.holdings.now) t) }
    ensures kept { let t = (T.standing tree.old).node_tree tile.node in
        IfOk result (λ state.
        state.kept ≡ keeps_own context.now.view.now (H.holdings context.now.holdings.now) t) }
    ensures walk { WalksTile result (T.standing tree.old) (T.standing tree.new)
        context.now.view.now (H.holdings context.now.holdings.now)
        tile.measured_by tile.node (found_in found.old) (found_in found.new) }
    ensures links { let children = children_of ((T.standing tree.old).node_tree tile.node) in
        let at = length found.old.visits.items in
        OnOk result (LinksMore context.now.view.now found.old.visits.items found.new.visits.items
        (all_linked_nodes context.now.view.now (Some tile.number) at (from_list children))) }
{
    match tile.refine {
        Refine::Add => {
            let own = own_of(tree, context.holdings, tile.node);
            found.show(tile.node, own)?;
            let all = walk_children(tree, context, tile, found)?;
            Ok(TileState {
                ready: own.resident | (own.lacking & all),
                kept: true,
            })
        }
        Refine::Replace => {
            let before = found.shown.len();
            let all = walk_children(tree, context, tile, found)?;
            if all {
                return Ok(TileState {
                    ready: true,
                    kept: false,
                });
            }
            let ready = fall_back(tree, context.holdings, tile.node, before, found)?;
            Ok(TileState { ready, kept: true })
        }
    }
}

/// Walks the children of a tile, and answers whether all are ready.
#[cycle(walk)]
fn walk_children<T: TileTree, H: Holdings>(
    tree: &mut T,
    context: &Context<'_, H>,
    tile: WantingTile,
    found: &mut Findings,
) -> Result<bool, CutError>
    requires valid { IsTrue ((T.standing tree.old).is_valid tile.node) }
    requires at_hand { IsTrue ((T.standing tree.old).at_hand tile.node) }
    requires above { IsAnyValid (T.standing tree.old) tile.measured_by }
    requires within { length found.old.visits.items ≤ VISITED_LIMIT }
    requires count { tile.count ≡ length (children_of ((T.standing tree.old).node_tree tile.node)) }
    ensures basis { T.basis tree.new ≡ T.basis tree.old }
    ensures ready { let children = children_of ((T.standing tree.old).node_tree tile.node) in
        IfOk result (λ all.
        all ≡ list_all (is_ready context.now.view.now (H.holdings context.now.holdings.now))
        children) }
    ensures walk { WalksChildren result (T.standing tree.old) (T.standing tree.new)
        context.now.view.now (H.holdings context.now.holdings.now)
        tile.measured_by tile.node (found_in found.old) (found_in found.new) }
    ensures links { let children = children_of ((T.standing tree.old).node_tree tile.node) in
        let at = length found.old.visits.items in
        OnOk result (LinksMore context.now.view.now found.old.visits.items found.new.visits.items
        (all_linked_nodes context.now.view.now (Some tile.number) at (from_list children))) }
{
    let mut all = true;
    for i in 0..tile.count {
        let child = tree.child(tile.node, i);
        let ready = walk_node(
            tree,
            context,
            child,
            tile.measured_by,
            Some(tile.number),
            found,
        )?;
        all = all & ready;
    }
    Ok(all)
}

/// What a walk from the root finds.
pub fn walk_whole<T: TileTree, H: Holdings>(
    alloc: Global,
    tree: &mut T,
    holdings: &H,
    view: &View,
) -> Result<Findings, CutError>
    ensures shown { let root = (T.standing tree.old).tree in
        let tiles = from_root (shown_tiles view.now (H.holdings holdings.now)) root in
        IfOk result (λ found. ShowsMore (T.standing tree.new) [] found.shown.items tiles) }
    ensures noted { let nodes = measured_visits view.now (T.standing tree.old).tree in
        IfOk result (λ found.
        NotesMore (T.standing tree.new) view.now (H.holdings holdings.now)
        [] found.visits.items nodes) }
    ensures count { let nodes = visits view.now (T.standing tree.old).tree in
        IfOk result (λ found. length found.visits.items ≡ length nodes) }
    ensures links { let nodes = from_root (linked_nodes view.now None 0)
        (T.standing tree.old).tree in
        IfOk result (λ found. LinksMore view.now [] found.visits.items nodes) }
    ensures basis { T.basis tree.new ≡ T.basis tree.old }
    ensures walk { WalksWhole result view.now (T.standing tree.old) (T.standing tree.new) }
{
    let mut found = Findings::new(alloc);
    let Some(root) = tree.top(alloc)? else {
        return Ok(found);
    };
    let context = Context {
        alloc,
        holdings,
        view,
    };
    walk_node(tree, &context, root, None, None, &mut found)?;
    Ok(found)
}
