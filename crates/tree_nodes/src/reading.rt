//! What is read of a node of the list.

ghost use Rattle.std.specs.Prelude.{◌≡◌, ◌<◌, ◌^◌, Some, option_map, length, slice_get};
ghost use Rattle.std.specs.Option.{ForSome};
ghost use Rattle.volumes.specs.Limits.{IsInRange};
ghost use Rattle.volumes.specs.Moves.{moved, moved_error};
ghost use Rattle.doc_store.specs.Store.{docs};
ghost use Rattle.expanded_tree.specs.Tree.{addresses_of, facts_of, key_of};
ghost use Rattle.tree_expansion.specs.Expansion.{place_contents, place_facts, written_facts};
ghost use Rattle.tree_nodes.specs.TreeIn.{tree_in};
ghost use Rattle.tree_nodes.specs.Places.{IsPlaceAt};
ghost use Rattle.tree_nodes.specs.Nodes.{IsSoundList, node_trees};

use crate::contents::{has_external, own_content, own_count};
use crate::documents::tile_of;
use crate::node::NodeSource;
use crate::node_list::NodeList;
use crate::place_entry::SubtreeState;
use crate::tables::Tables;
use doc_store::DocStore;
use expanded_tree::NodeFacts;
use fixed_geometry::Affine;
use implicit_walk::{error_at, volume_at};
use tile_types::{Key, Refine, Text};
use tileset_schema::Written;
use volumes::Volume;

/// A tile's request volume under a transform.
pub(crate) fn moved_request(own: &Written, transform: &Affine) -> Option<Volume>
    ensures value { result ≡ option_map (λ volume. moved volume transform.now)
        own.now.parts.request }
    ensures within { ForSome result IsInRange }
{
    match own.request() {
        None => None,
        Some(volume) => Some(volume.moved(transform)),
    }
}

/// What is known of a tile of this computed transform that is refined so.
fn tile_facts(own: &Written, transform: &Affine, refine: Refine) -> NodeFacts
    ensures { result ≡ written_facts (record {
      transform = transform.now;
      error = moved_error own.now.parts.error transform.now;
      refine = refine;
    }) own.now.parts }
{
    NodeFacts {
        volume: Some(own.volume().moved(transform)),
        request: moved_request(own, transform),
        error: volumes::moved_error(own.error(), transform),
        refine,
        external: has_external(own),
    }
}

/// What is known of a node below an implicit root.
fn place_facts(store: &DocStore, tables: &Tables, number: u32) -> NodeFacts
    requires { IsPlaceAt store.now tables.now number }
    ensures { (p : IsPlaceAt store.now tables.now number)
        → result ≡ place_facts p.has.top p.entry.at
        (place_contents (docs store.now) p.has.top p.entry.at) }
{
    let entry = tables.places[number as usize];
    let top = &tables.tops[entry.top as usize];
    let root = top.root(store);
    let request = if entry.at.level == 0 {
        top.request
    } else {
        None
    };
    NodeFacts {
        volume: Some(volume_at(&root, entry.at)),
        request,
        error: error_at(&root, entry.at),
        refine: top.refine,
        external: entry.external.count > 0,
    }
}

/// What is known of the node at a place.
pub fn facts_at(store: &DocStore, list: &NodeList, place: u64) -> NodeFacts
    requires sound { IsSoundList store.now list.now }
    requires within { place < length list.now.nodes.items }
    ensures { result ≡ facts_of (tree_in (node_trees store.now list.now) place) }
{
    let node = list.nodes[place as usize];
    match node.source {
        NodeSource::Pending { waiting } => NodeFacts {
            volume: None,
            request: None,
            error: list.tables.waiting[waiting as usize].error,
            refine: node.refine,
            external: false,
        },
        NodeSource::Tile { document, tile } => {
            let transform = &list.tables.transforms[node.transform as usize];
            tile_facts(tile_of(store, document, tile), transform, node.refine)
        }
        NodeSource::Implicit { place } => place_facts(store, &list.tables, place),
    }
}

/// How many own contents the node at a place has.
pub fn content_count_at(store: &DocStore, list: &NodeList, place: u64) -> u32
    requires sound { IsSoundList store.now list.now }
    requires within { place < length list.now.nodes.items }
    ensures { result ≡ length (addresses_of (tree_in (node_trees store.now list.now) place)) }
{
    match list.nodes[place as usize].source {
        NodeSource::Pending { waiting: _ } => 0,
        NodeSource::Tile { document, tile } => own_count(tile_of(store, document, tile)),
        NodeSource::Implicit { place } => list.tables.places[place as usize].contents.count,
    }
}

/// The address of the own content of this number of the node at a place.
pub fn content_at<'s>(store: &'s DocStore, list: &'s NodeList, place: u64, number: u32) -> &'s Text
    requires sound { IsSoundList store.now list.now }
    requires within { place < length list.now.nodes.items }
    requires content { number < length
        (addresses_of (tree_in (node_trees store.now list.now) place)) }
    ensures { slice_get (addresses_of (tree_in (node_trees store.now list.now) place)) number
        ≡ Some result.now }
{
    match list.nodes[place as usize].source {
        NodeSource::Pending { waiting: _ } => unreachable!(),
        NodeSource::Tile { document, tile } => own_content(tile_of(store, document, tile), number),
        NodeSource::Implicit { place } => {
            let first = list.tables.places[place as usize].contents.first;
            &list.tables.contents[first as usize + number as usize]
        }
    }
}

/// The key that the node at a place waits for, or None where it is a tile.
pub fn pending_at<'l>(_store: &DocStore, list: &'l NodeList, place: u64) -> Option<&'l Key>
    requires sound { IsSoundList _store.now list.now }
    requires within { place < length list.now.nodes.items }
    ensures { option_map (λ key. key.now) result
        ≡ key_of (tree_in (node_trees _store.now list.now) place) }
{
    match list.nodes[place as usize].source {
        NodeSource::Tile { .. } => None,
        NodeSource::Pending { waiting } => Some(&list.tables.waiting[waiting as usize].key),
        NodeSource::Implicit { place } => match list.tables.places[place as usize].state {
            SubtreeState::Read { subtree: _ } => None,
            SubtreeState::Awaited { waiting } => {
                Some(&list.tables.waiting[waiting as usize].key)
            }
        },
    }
}
