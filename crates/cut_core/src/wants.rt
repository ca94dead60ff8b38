//! The keys that a view wants loaded.

ghost use Rattle.std.specs.Prelude.{◌≡◌, ◌≤◌, [], All, IfOk, IsTrue, OnOk, fold, map, true};
ghost use Rattle.std.specs.List.{IsDistinct, flat_map};
ghost use Rattle.fixed_geometry.specs.declared.limits.TheConstants.{DISTANCE_LIMIT};
ghost use Rattle.tile_types.specs.Keys.{same_key};
ghost use Rattle.cut_core.specs.Distances.{measured_visits, trees_in};
ghost use Rattle.cut_core.specs.Noted.{IsNoteValid, measured_at, wants_noted};
ghost use Rattle.cut_core.specs.Visits.{content_key, visits};
ghost use Rattle.cut_core.specs.Walk.{IsAnyValid, distance_by};
ghost use Rattle.cut_core.specs.WantMap.{wants_in};
ghost use Rattle.cut_core.specs.Wants.{is_missing, missing_contents, ranks_of, want_with, wanted};
ghost use Rattle.cut_core.specs.Wants.{with_want};
ghost use Rattle.cut_core.specs.WholeWalk.{WalksWhole};

use crate::content_key::key_of_content;
use crate::error::CutError;
use crate::findings::Visit;
use crate::holdings::Holdings;
use crate::own::own_of;
use crate::walk::{Context, walk_whole};
use crate::want_map::WantMap;
use error_test::View;
use expanded_tree::{Node, TileTree};
use std::alloc::{AllocError, Global};
use tile_types::{Text, TileFacts, WantList};

/// How far the eye is from the volume of this node, in millimetres.
fn distance_by<T: TileTree>(tree: &T, view: &View, node: Option<Node>) -> u64
    requires { IsAnyValid (T.standing tree.now) node }
    ensures value { result ≡ distance_by (T.standing tree.now) view.now node }
    ensures within { result ≤ DISTANCE_LIMIT }
{
    let Some(node) = node else {
        return 0;
    };
    let facts = tree.facts(node);
    match &facts.volume {
        None => 0,
        Some(volume) => volume.distance(view.eye()),
    }
}

/// What the wants of a visited node are ranked by: its distance in millimetres, and its error in
/// micrometres.
pub fn facts_noted<T: TileTree>(tree: &T, view: &View, visit: &Visit) -> TileFacts
    requires { IsNoteValid (T.standing tree.now) visit.now }
    ensures { result ≡ ranks_of (measured_at (T.standing tree.now) view.now visit.now) }
{
    TileFacts {
        distance: distance_by(tree, view, visit.measured_by),
        error: tree.facts(visit.node).error,
    }
}

/// Whether the content at this address is neither resident nor known to be absent.
pub fn is_missing<H: Holdings>(holdings: &H, address: &Text) -> bool
    ensures { result ≡ is_missing (H.holdings holdings.now) address.now }
{
    !holdings.absent(address) && !holdings.resident(address)
}

/// Adds the wants for the missing ones of a node's own contents.
fn put_missing<T: TileTree, H: Holdings>(
    tree: &T,
    context: &Context<'_, H>,
    node: Node,
    facts: TileFacts,
    wants: &mut WantMap,
) -> Result<(), AllocError>
    requires { IsTrue ((T.standing tree.now).is_valid node) }
    ensures { let t = (T.standing tree.now).node_tree node in
        let keys = map content_key (missing_contents (H.holdings context.now.holdings.now) true t)
        in
        OnOk result (wants_in wants.new ≡ fold with_want (wants_in wants.old)
        (map (want_with facts) keys)) }
{
    for i in 0..tree.content_count(node) {
        let address = tree.content(node, i);
        if is_missing(context.holdings, address) {
            let key = key_of_content(context.alloc, address)?;
            wants.put(key, facts)?;
        }
    }
    Ok(())
}

/// Adds what a visited node wants. Its distance is computed only where it wants something.
fn put_wants<T: TileTree, H: Holdings>(
    tree: &T,
    context: &Context<'_, H>,
    visit: &Visit,
    wants: &mut WantMap,
) -> Result<(), AllocError>
    requires { IsNoteValid (T.standing tree.now) visit.now }
    ensures { let holdings = H.holdings context.now.holdings.now in
        let more = wants_noted (T.standing tree.now) context.now.view.now holdings visit.now in
        OnOk result (wants_in wants.new ≡ fold with_want (wants_in wants.old) more) }
{
    if let Some(key) = tree.pending(visit.node) {
        let facts = facts_noted(tree, context.view, visit);
        let key = key.copy(context.alloc)?;
        return wants.put(key, facts);
    }
    if !visit.kept {
        return Ok(());
    }
    let own = own_of(tree, context.holdings, visit.node);
    if own.lacking | own.resident {
        return Ok(());
    }
    let facts = facts_noted(tree, context.view, visit);
    put_missing(tree, context, visit.node, facts, wants)
}

/// What the noted nodes want.
pub(crate) fn wants_of_visits<T: TileTree, H: Holdings>(
    tree: &T,
    context: &Context<'_, H>,
    visits: &[Visit],
) -> Result<WantMap, AllocError>
    requires { All (λ v. IsNoteValid (T.standing tree.now) v) visits.now }
    ensures { let holdings = H.holdings context.now.holdings.now in
        let noted = wants_noted (T.standing tree.now) context.now.view.now holdings in
        IfOk result (λ wants. wants_in wants ≡ fold with_want [] (flat_map noted visits.now)) }
{
    let mut wants = WantMap::new(context.alloc);
    for visit in visits {
        put_wants(tree, context, visit, &mut wants)?;
    }
    Ok(wants)
}

/// The keys that the view wants, in preorder, each once: those of the visited pending nodes, and
/// those of the contents that it keeps and that are neither resident nor absent. Each is ranked by
/// the least distance and the greatest error of the nodes that want it, in millimetres and
/// micrometres. A node without a volume is at the distance of the node above it, and a root without
/// one at 0.
///
/// Errors: `TooLarge` where the view visits more than 65,536 nodes, or `OutOfMemory`.
pub fn want<T: TileTree, H: Holdings>(
    alloc: Global,
    tree: &mut T,
    holdings: &H,
    view: &View,
) -> Result<WantList, CutError>
    ensures wants { let root = (T.standing tree.old).tree in
        IfOk result (λ wants. wants ≡ wanted view.now (H.holdings holdings.now) root) }
    ensures basis { T.basis tree.new ≡ T.basis tree.old }
    ensures walk { WalksWhole result view.now (T.standing tree.old) (T.standing tree.new) }

    // No key stands twice.
    ensures apart { IfOk result (λ wants. IsDistinct same_key (map (λ want. want.key) wants)) }

    // The nodes whose distances are taken are the visited ones.
    ensures nodes { let root = (T.standing tree.old).tree in
        trees_in (measured_visits view.now root) ≡ visits view.now root }
{
    let found = walk_whole(alloc, tree, holdings, view)?;
    let context = Context {
        alloc,
        holdings,
        view,
    };
    let wants = wants_of_visits(tree, &context, &found.visits)?;
    Ok(wants.into_list(alloc)?)
}
