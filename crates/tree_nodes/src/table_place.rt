//! Where the bits of implicit tiles are.

ghost use Rattle.std.specs.Prelude.{◌≡◌, ◌<◌, length};
ghost use Rattle.implicit_walk.specs.Places.{number_in_subtree};
ghost use Rattle.tree_nodes.specs.Nodes.{IsSoundList, node_trees};
ghost use Rattle.tree_nodes.specs.Places.{IsPlaceAt};
ghost use Rattle.tree_nodes.specs.TablePlaces.{TellsPlace, origin_of};
ghost use Rattle.tree_nodes.specs.TreeIn.{tree_in};

use crate::node::NodeSource;
use crate::node_list::NodeList;
use crate::place_entry::SubtreeState;
use crate::tables::Tables;
use doc_store::DocStore;
use implicit_walk::tile_number;

/// Where the bit of an implicit tile is (OGC 22-025r4, "Subtrees"): the numbers of its document and
/// of its subtree in the store of its tree, and the index of its bit there, all from 0.
#[derive(Clone, Copy, Debug, PartialEq, Eq)]
pub struct TablePlace {
    pub document: u32,
    pub subtree: u32,
    pub index: u64,
}

/// Where the bit of the node at a place of the list is, or None where it is no implicit tile. It
/// takes no memory.
pub fn table_place_at(store: &DocStore, list: &NodeList, at: u64) -> Option<TablePlace>
    requires sound { IsSoundList store.now list.now }
    requires within { at < length list.now.nodes.items }
    ensures { TellsPlace store.now (origin_of (tree_in (node_trees store.now list.now) at)) result }
{
    match list.nodes[at as usize].source {
        NodeSource::Tile { .. } => None,
        NodeSource::Pending { waiting: _ } => None,
        NodeSource::Implicit { place } => match list.tables.places[place as usize].state {
            SubtreeState::Read { subtree } => Some(place_in(store, &list.tables, place, subtree)),
            SubtreeState::Awaited { waiting: _ } => None,
        },
    }
}

/// Where the bit of the tile of an entry is, in the subtree of this number.
fn place_in(store: &DocStore, tables: &Tables, number: u32, subtree: u32) -> TablePlace
    requires { IsPlaceAt store.now tables.now number }
    ensures { (p : IsPlaceAt store.now tables.now number) → result ≡ record {
      document = p.has.placed.is_top.entry.document;
      subtree = subtree;
      index = number_in_subtree p.has.top.root.part p.entry.at;
    } }
{
    let entry = tables.places[number as usize];
    let top = &tables.tops[entry.top as usize];
    let root = top.root(store);
    TablePlace {
        document: top.document,
        subtree,
        index: tile_number(&root, entry.at),
    }
}
