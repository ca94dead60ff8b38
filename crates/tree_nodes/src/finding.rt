//! What there is at the places below implicit roots (OGC 22-025r4, "Availability").

ghost use Rattle.std.specs.Prelude.{◌≡◌, ◌<◌, None, IfOk, IfSome};
ghost use Rattle.subtree_binary.specs.Found.{here_of};
ghost use Rattle.implicit_walk.specs.Places.{IsPlace, above, root_place};
ghost use Rattle.implicit_walk.specs.Presences.{own_presence, presence};
ghost use Rattle.doc_store.specs.Docs.{subtree_at};
ghost use Rattle.doc_store.specs.Store.{docs};
ghost use Rattle.tree_nodes.specs.Places.{IsFoundTile, IsSubtreeOf};
ghost use Rattle.tree_nodes.specs.Found.{IsSubtree};

use crate::bits::{has_child_subtree, has_tile};
use crate::found::FoundTile;
use doc_store::DocStore;
use implicit_walk::{ImplicitRoot, Place, begins_subtree, subtree_of};
use std::alloc::{AllocError, Global};
use subtree_binary::{Subtree, Subtrees};
use tile_types::Key;

/// The number of a key's subtree, where it is read.
fn subtree_number(store: &DocStore, key: &Key) -> Option<u32>
    ensures read { IfSome result (λ number. IsSubtree store.now key.now number) }
    ensures unread { result ≡ None → here_of (subtree_at (docs store.now) key.now) ≡ None }
{
    let number = store.number_of(key)?;
    match store.subtree_at(number) {
        None => None,
        Some(_) => Some(number),
    }
}

/// The subtree of this number, which a place below the root is in.
pub(crate) fn subtree_in<'s>(
    store: &'s DocStore,
    _root: &ImplicitRoot,
    _at: Place,
    number: u32,
) -> &'s Subtree
    requires { IsSubtreeOf store.now _root.now _at number }
    ensures { (subtree : IsSubtreeOf store.now _root.now _at number)
        → result.now ≡ subtree.parts }
{
    match store.subtree_at(number) {
        None => unreachable!(),
        Some(subtree) => subtree,
    }
}

/// What the subtree of this number, which the place is in, says of it.
fn find_in(store: &DocStore, root: &ImplicitRoot, number: u32, at: Place) -> FoundTile
    requires place { IsPlace root.now.part at }
    requires subtree { IsSubtreeOf store.now root.now at number }
    ensures { IsFoundTile store.now root.now at
        (own_presence root.now (subtree_at (docs store.now)) at) result }
{
    if has_tile(root, subtree_in(store, root, at, number), at) {
        return FoundTile::Read { subtree: number };
    }
    FoundTile::No
}

/// What the subtree that the place is in says of it.
fn find_own(
    alloc: Global,
    store: &DocStore,
    root: &ImplicitRoot,
    at: Place,
) -> Result<FoundTile, AllocError>
    requires { IsPlace root.now.part at }
    ensures { IfOk result (λ found. IsFoundTile store.now root.now at
        (own_presence root.now (subtree_at (docs store.now)) at) found) }
{
    let Some(key) = subtree_of(alloc, root, at)? else {
        return Ok(FoundTile::No);
    };
    match subtree_number(store, &key) {
        Some(number) => Ok(find_in(store, root, number, at)),
        None if store.lost(&key) => Ok(FoundTile::No),
        None => Ok(FoundTile::Awaited { key }),
    }
}

/// What there is at the root's own place.
pub(crate) fn find_root(
    alloc: Global,
    store: &DocStore,
    root: &ImplicitRoot,
) -> Result<FoundTile, AllocError>
    requires { IsPlace root.now.part root_place }
    ensures { IfOk result (λ found. IsFoundTile store.now root.now root_place
        (presence root.now (subtree_at (docs store.now)) root_place) found) }
{
    find_own(alloc, store, root, Place::root())
}

/// What there is at a place below a tile, whose subtree has this number: no other subtree is looked
/// for, unless one begins with the place.
pub(crate) fn find_below(
    alloc: Global,
    store: &DocStore,
    root: &ImplicitRoot,
    number: u32,
    at: Place,
) -> Result<FoundTile, AllocError>
    requires place { IsPlace root.now.part at }
    requires level { 0 < at.level }
    requires above { IsSubtreeOf store.now root.now (above 1 at) number }
    ensures { IfOk result (λ found. IsFoundTile store.now root.now at
        (presence root.now (subtree_at (docs store.now)) at) found) }
{
    if !begins_subtree(root, at) {
        return Ok(find_in(store, root, number, at));
    }
    if !has_child_subtree(root, subtree_in(store, root, at.above(1), number), at) {
        return Ok(FoundTile::No);
    }
    find_own(alloc, store, root, at)
}
