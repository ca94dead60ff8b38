//! How implicit tiles are listed (OGC 22-025r4, "Implicit Tiling").

ghost use Rattle.std.specs.Prelude.{◌≡◌, ◌≢◌, ◌<◌, None, Some, option_to_list, length, slice_get};
ghost use Rattle.tree_nodes.specs.TreeIn.{tree_in};
ghost use Rattle.tree_nodes.specs.Tiles.{HasRow, IsTileAt};
ghost use Rattle.tree_nodes.specs.Places.{HasTile, IsBelowTile, IsFoundAt, place_children, place_tree};
ghost use Rattle.tree_nodes.specs.Nodes.{IsSoundList, node_trees};
ghost use Rattle.tree_nodes.specs.Growth.{Adds, AddsChildrenOf, CanTake, IsPlaceParent, place_external, written_at};
ghost use Rattle.tree_nodes.specs.declared.node.NodeSource.TheVariants.{Implicit};

use crate::documents::find;
use crate::error::ListError;
use crate::finding::{find_below, find_root};
use crate::found::FoundTile;
use crate::node::{Handed, TreeNode};
use crate::node_list::NodeList;
use crate::place_entry::{PlaceEntry, SubtreeState};
use doc_store::DocStore;
use implicit_walk::{CHILD_LIMIT, Place, child_places, error_at};
use std::alloc::Global;
use tileset_schema::Written;

impl NodeList {
    /// Adds the node of an implicit root, if it leaves one: a tile that says this of itself.
    pub(crate) fn push_implicit_root(
        &mut self,
        alloc: Global,
        store: &DocStore,
        handed: Handed,
        document: u32,
        tile: u32,
        own: &Written,
        limit: Option<u32>,
    ) -> Result<(), ListError>
        requires sound { IsSoundList store.now self.old }
        requires handed { CanTake self.old handed }
        requires there { IsTileAt store.now document tile }
        requires own { HasRow store.now document tile own.now }
        requires implicit { own.now.parts.implicit ≢ None }
        ensures { Adds store.now limit self.old self.new
            (option_to_list (written_at store.now self.old handed document tile)) result }
    {
        let Ok(top) = self.add_top(alloc, store, handed, document, tile, own) else {
            return Err(ListError::OutOfMemory);
        };
        let Ok(found) = find_root(alloc, store, &self.tables.root(store, top)) else {
            return Err(ListError::OutOfMemory);
        };
        match self.push_found(alloc, store, handed, top, Place::root(), found, limit) {
            Err(e) => Err(e),
            Ok(()) => Ok(()),
        }
    }

    /// Adds the node of a place below an implicit root, where this is found.
    fn push_found(
        &mut self,
        alloc: Global,
        store: &DocStore,
        handed: Handed,
        top: u32,
        at: Place,
        found: FoundTile,
        limit: Option<u32>,
    ) -> Result<(), ListError>
        requires sound { IsSoundList store.now self.old }
        requires handed { CanTake self.old handed }
        requires found { IsFoundAt store.now self.old.tables top at found }
        ensures { Adds store.now limit self.old self.new (option_to_list
            (place_tree store.now self.old.tables handed.levels top at)) result }
    {
        match found {
            FoundTile::No => Ok(()),
            FoundTile::Read { subtree } => {
                let Ok(entry) = self.tables.make_tile(alloc, store, top, subtree, at) else {
                    return Err(ListError::OutOfMemory);
                };
                match self.push_place(handed, entry, limit) {
                    Err(e) => Err(e),
                    Ok(()) => Ok(()),
                }
            }
            FoundTile::Awaited { key } => {
                let Ok(entry) = self.tables.make_awaited(store, top, at, key) else {
                    return Err(ListError::OutOfMemory);
                };
                match self.push_place(handed, entry, limit) {
                    Err(e) => Err(e),
                    Ok(()) => Ok(()),
                }
            }
        }
    }

    /// Adds the node of a place below a tile, whose subtree has this number, if it leaves one.
    fn push_below(
        &mut self,
        alloc: Global,
        store: &DocStore,
        handed: Handed,
        top: u32,
        subtree: u32,
        at: Place,
        limit: Option<u32>,
    ) -> Result<(), ListError>
        requires sound { IsSoundList store.now self.old }
        requires handed { CanTake self.old handed }
        requires below { IsBelowTile store.now self.old.tables top subtree at }
        ensures { Adds store.now limit self.old self.new (option_to_list
            (place_tree store.now self.old.tables handed.levels top at)) result }
    {
        let found = find_below(alloc, store, &self.tables.root(store, top), subtree, at);
        let Ok(found) = found else {
            return Err(ListError::OutOfMemory);
        };
        match self.push_found(alloc, store, handed, top, at, found, limit) {
            Err(e) => Err(e),
            Ok(()) => Ok(()),
        }
    }

    /// Adds the nodes of the places below a tile, in Morton order.
    fn push_places(
        &mut self,
        alloc: Global,
        store: &DocStore,
        handed: Handed,
        top: u32,
        subtree: u32,
        at: Place,
        limit: Option<u32>,
    ) -> Result<(), ListError>
        requires sound { IsSoundList store.now self.old }
        requires handed { CanTake self.old handed }
        requires some { 0 < length self.old.nodes.items }
        requires tile { HasTile store.now self.old.tables top subtree at }
        ensures { Adds store.now limit self.old self.new
            (place_children store.now self.old.tables handed.levels top at) result }
    {
        let row = child_places(&self.tables.root(store, top), at);
        for child in row.as_slice() {
            match self.push_below(alloc, store, handed, top, subtree, *child, limit) {
                Err(e) => return Err(e),
                Ok(()) => {}
            }
        }
        Ok(())
    }

    /// Adds the nodes of the external tilesets of the tile at a place.
    fn push_place_external(
        &mut self,
        alloc: Global,
        store: &DocStore,
        handed: Handed,
        entry: PlaceEntry,
        limit: Option<u32>,
    ) -> Result<(), ListError>
        requires sound { IsSoundList store.now self.old }
        requires handed { CanTake self.old handed }
        requires some { 0 < length self.old.nodes.items }
        requires parent { IsPlaceParent store.now self.old handed entry }
        ensures { Adds store.now limit self.old self.new
            (place_external store.now self.old.tables handed.levels entry) result }
    {
        if handed.levels == 0 {
            return Ok(());
        }
        let levels = handed.levels - 1;
        for number in 0..entry.external.count {
            let error = error_at(&self.tables.root(store, entry.top), entry.at);
            let place = entry.external.first as usize + number as usize;
            let address = self.tables.external[place].text();
            let Ok(found) = find(alloc, store, address) else {
                return Err(ListError::OutOfMemory);
            };
            let handed = Handed {
                number,
                levels,
                ..handed
            };
            match self.push_found_tileset(alloc, store, handed, error, found, limit) {
                Err(e) => return Err(e),
                Ok(()) => {}
            }
        }
        Ok(())
    }

    /// Adds the nodes of the children of the node at a place of the list, which is below an
    /// implicit root.
    pub(crate) fn push_place_children(
        &mut self,
        alloc: Global,
        store: &DocStore,
        place: u32,
        node: TreeNode,
        number: u32,
        limit: Option<u32>,
    ) -> Result<(), ListError>
        requires sound { IsSoundList store.now self.old }
        requires node { slice_get self.old.nodes.items place ≡ Some node }
        requires source { node.source ≡ Implicit number }
        ensures { AddsChildrenOf store.now limit self.old self.new
            (tree_in (node_trees store.now self.old) place) result }
    {
        let entry = self.tables.places[number as usize];
        let SubtreeState::Read { subtree } = entry.state else {
            return Ok(());
        };
        // No memory holds so many: so the children are fewer than 2^32.
        if entry.external.count > u32::MAX - CHILD_LIMIT as u32 {
            return Err(ListError::OutOfMemory);
        }
        let top = &self.tables.tops[entry.top as usize];
        let handed = Handed {
            parent: place,
            transform: top.transform,
            number: 0,
            levels: node.levels,
            refine: top.refine,
        };
        match self.push_places(alloc, store, handed, entry.top, subtree, entry.at, limit) {
            Err(e) => Err(e),
            Ok(()) => match self.push_place_external(alloc, store, handed, entry, limit) {
                Err(e) => Err(e),
                Ok(()) => Ok(()),
            },
        }
    }
}
