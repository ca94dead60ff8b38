//! How the list of nodes grows.

ghost use Rattle.std.specs.Prelude.{◌≡◌, ◌+◌, ◌<◌, ◌≤◌, ◌^◌, ℕ, List, None, Some, option_to_list, length, slice_get};
ghost use Rattle.std.specs.Prelude.{IfErr, OnErr, OnOk};
ghost use Rattle.tile_uri.specs.Addresses.{IsAddress};
ghost use Rattle.volumes.specs.Limits.{error_limit};
ghost use Rattle.doc_store.specs.Store.{docs};
ghost use Rattle.tree_expansion.specs.Expansion.{tileset, tilesets};
ghost use Rattle.tree_nodes.specs.Trees.{stored_tree};
ghost use Rattle.tree_nodes.specs.TreeIn.{tree_in};
ghost use Rattle.tree_nodes.specs.Nodes.{IsSoundList, node_trees};
ghost use Rattle.expanded_tree.specs.Tree.{children_of};
ghost use Rattle.tree_nodes.specs.Growth.{Adds, AddsChildrenOf, AddsWritten, CanTake, Grows, HasFew, IsEmptyList, Refuses, Stays};
ghost use Rattle.tree_nodes.specs.Growth.{external_trees, handed_holder, handed_name, written_at};
ghost use Rattle.tree_nodes.specs.declared.node.NodeSource.TheVariants.{Tile};
ghost use Rattle.tree_nodes.specs.Found.{IsFound, IsFoundSome};
ghost use Rattle.tree_nodes.specs.Tiles.{HasRow, IsDocument, IsTileAt, StandsIn, address_in, document_rows};

use crate::documents::{find, tile_count, tile_of};
use crate::error::ListError;
use crate::found::Found;
use crate::node::{Handed, NodeSource, TreeNode, Waiting};
use crate::node_list::NodeList;
use doc_store::DocStore;
use std::alloc::{AllocError, Global};
use tile_types::{Refine, Text};
use tileset_schema::Written;
use tree_expansion::NESTING_LIMIT;

impl NodeList {
    /// Adds the node of the root of a store's tree, if there is one, to a list without nodes.
    pub fn push_root(
        &mut self,
        alloc: Global,
        store: &DocStore,
        limit: Option<u32>,
    ) -> Result<(), ListError>
        requires { IsEmptyList self.old }
        ensures grows { OnOk result (Grows store.now limit self.old self.new
            (option_to_list (stored_tree store.now))) }
        ensures refused { IfErr result (λ e. Refuses limit (length self.old.nodes.items
            + length (option_to_list (stored_tree store.now))) e) }
        ensures err { OnErr result (IsEmptyList self.new) }
    {
        let handed = Handed {
            parent: 0,
            transform: 0,
            number: 0,
            levels: NESTING_LIMIT as u8,
            refine: Refine::Replace,
        };
        match self.push_tileset(alloc, store, handed, 0, store.root(), limit) {
            Err(e) => {
                self.clear();
                Err(e)
            }
            Ok(()) => Ok(()),
        }
    }

    /// Adds the nodes of the children of the node at a place, in order and side by side. Want of
    /// memory leaves the nodes as they were.
    pub fn open_children(
        &mut self,
        alloc: Global,
        store: &DocStore,
        place: u64,
    ) -> Result<(), AllocError>
        requires sound { IsSoundList store.now self.old }
        requires within { place < length self.old.nodes.items }
        ensures grows { OnOk result (Grows store.now None self.old self.new
            (children_of (tree_in (node_trees store.now self.old) place))) }
        ensures few { OnOk result (HasFew (tree_in (node_trees store.now self.old) place)) }
        ensures err { OnErr result (Stays store.now self.old self.new) }
    {
        let count = self.nodes.len();
        match self.push_children(alloc, store, place, None) {
            Err(_) => {
                self.nodes.truncate(count);
                Err(AllocError)
            }
            Ok(()) => Ok(()),
        }
    }

    /// Adds the node of the tileset at an address, if it leaves one, held by a tile of this error,
    /// in micrometres (OGC 22-025r4, "External tilesets").
    pub(crate) fn push_tileset(
        &mut self,
        alloc: Global,
        store: &DocStore,
        handed: Handed,
        error: u64,
        address: &Text,
        limit: Option<u32>,
    ) -> Result<(), ListError>
        requires sound { IsSoundList store.now self.old }
        requires handed { CanTake self.old handed }
        requires error { error ≤ error_limit }
        requires address { IsAddress address.now }
        ensures { Adds store.now limit self.old self.new
            (option_to_list (tileset (docs store.now) (tilesets (docs store.now) handed.levels)
            (handed_name store.now self.old handed) (handed_holder self.old handed error)
            address.now)) result }
    {
        let Ok(found) = find(alloc, store, address) else {
            return Err(ListError::OutOfMemory);
        };
        match self.push_found_tileset(alloc, store, handed, error, found, limit) {
            Err(e) => Err(e),
            Ok(()) => Ok(()),
        }
    }

    /// The same of a tileset of which this is known.
    pub(crate) fn push_found_tileset(
        &mut self,
        alloc: Global,
        store: &DocStore,
        handed: Handed,
        error: u64,
        found: Found,
        limit: Option<u32>,
    ) -> Result<(), ListError>
        requires sound { IsSoundList store.now self.old }
        requires handed { CanTake self.old handed }
        requires error { error ≤ error_limit }
        requires found { IsFoundSome store.now found }
        ensures { (address : List ℕ) → IsFound store.now address found
            → Adds store.now limit self.old self.new
            (option_to_list (tileset (docs store.now) (tilesets (docs store.now) handed.levels)
            (handed_name store.now self.old handed) (handed_holder self.old handed error)
            address)) result }
    {
        match found {
            Found::Lost => Ok(()),
            Found::Waiting { key } => {
                match self.push_pending(handed, Waiting { key, error }, limit) {
                    Err(e) => Err(e),
                    Ok(()) => Ok(()),
                }
            }
            Found::Here { document } => {
                let own = tile_of(store, document, 0);
                match self.push_written_tile(alloc, store, handed, document, 0, own, limit) {
                    Err(e) => Err(e),
                    Ok(()) => Ok(()),
                }
            }
        }
    }

    /// Adds the node of a tile that a document writes out and that says this of itself, if it
    /// leaves one (OGC 22-025r4, "Tiles").
    fn push_written_tile(
        &mut self,
        alloc: Global,
        store: &DocStore,
        handed: Handed,
        document: u32,
        tile: u32,
        own: &Written,
        limit: Option<u32>,
    ) -> Result<(), ListError>
        requires sound { IsSoundList store.now self.old }
        requires handed { CanTake self.old handed }
        requires there { IsTileAt store.now document tile }
        requires own { HasRow store.now document tile own.now }
        ensures { Adds store.now limit self.old self.new
            (option_to_list (written_at store.now self.old handed document tile)) result }
    {
        if own.implicit().is_some() {
            return self.push_implicit_root(alloc, store, handed, document, tile, own, limit);
        }
        // No document of a store is long enough for this: so contents have numbers.
        if own.content_count() > u32::MAX as usize {
            return Err(ListError::OutOfMemory);
        }
        match self.push_tile(handed, NodeSource::Tile { document, tile }, own, limit) {
            Err(e) => Err(e),
            Ok(()) => Ok(()),
        }
    }

    /// Adds the nodes of the written children of a tile, and answers how many children there are.
    fn push_written(
        &mut self,
        alloc: Global,
        store: &DocStore,
        tiles: &[Written],
        handed: Handed,
        document: u32,
        tile: u32,
        limit: Option<u32>,
    ) -> Result<u32, ListError>
        requires sound { IsSoundList store.now self.old }
        requires handed { CanTake self.old handed }
        requires some { 0 < length self.old.nodes.items }
        requires tiles { document_rows store.now document ≡ Some tiles.now }
        requires document { IsDocument tiles.now }
        requires address { IsAddress (address_in store.now document) }
        requires there { StandsIn tiles.now tile }
        ensures { AddsWritten store.now limit self.old self.new handed document tile result }
    {
        // The numbers of tiles are below their count, which fits.
        let _ = tile_count(tiles);
        let end = tile + tiles[tile as usize].size();
        let mut next = tile + 1;
        let mut number = 0;
        while next < end {
            let own = &tiles[next as usize];
            let handed = Handed { number, ..handed };
            match self.push_written_tile(alloc, store, handed, document, next, own, limit) {
                Err(e) => return Err(e),
                Ok(()) => {}
            }
            next += own.size();
            number += 1;
        }
        Ok(number)
    }

    /// Adds the nodes of the external tilesets of a tile that says this of itself, the first of
    /// which has the number that is handed.
    fn push_external(
        &mut self,
        alloc: Global,
        store: &DocStore,
        own: &Written,
        handed: Handed,
        limit: Option<u32>,
    ) -> Result<(), ListError>
        requires sound { IsSoundList store.now self.old }
        requires handed { CanTake self.old handed }
        requires some { 0 < length self.old.nodes.items }
        requires few { handed.number + length own.now.parts.contents < 2 ^ 32 }
        ensures { Adds store.now limit self.old self.new
            (external_trees store.now self.old handed own.now.parts) result }
    {
        if handed.levels == 0 {
            return Ok(());
        }
        let levels = handed.levels - 1;
        let mut number = handed.number;
        for i in 0..own.content_count() {
            if !own.is_external(i) {
                continue;
            }
            let error = self.moved_error(own, handed.transform);
            let handed = Handed {
                number,
                levels,
                ..handed
            };
            match self.push_tileset(alloc, store, handed, error, own.content(i), limit) {
                Err(e) => return Err(e),
                Ok(()) => {}
            }
            number += 1;
        }
        Ok(())
    }

    /// Adds the nodes of the children of the node at a place, which is this tile.
    fn push_tile_children(
        &mut self,
        alloc: Global,
        store: &DocStore,
        place: u32,
        node: TreeNode,
        document: u32,
        tile: u32,
        limit: Option<u32>,
    ) -> Result<(), ListError>
        requires sound { IsSoundList store.now self.old }
        requires node { slice_get self.old.nodes.items place ≡ Some node }
        requires source { node.source ≡ Tile document tile }
        ensures { AddsChildrenOf store.now limit self.old self.new
            (tree_in (node_trees store.now self.old) place) result }
    {
        let Some(found) = store.document(document) else {
            unreachable!();
        };
        let tiles = found.tiles();
        let own = &tiles[tile as usize];
        // No document of a store is long enough for this: so the children are fewer than 2^32.
        if own.content_count() > (u32::MAX - own.size()) as usize {
            return Err(ListError::OutOfMemory);
        }
        let handed = Handed {
            parent: place,
            transform: node.transform,
            number: 0,
            levels: node.levels,
            refine: node.refine,
        };
        match self.push_written(alloc, store, tiles, handed, document, tile, limit) {
            Err(e) => Err(e),
            Ok(number) => {
                let handed = Handed { number, ..handed };
                match self.push_external(alloc, store, own, handed, limit) {
                    Err(e) => Err(e),
                    Ok(()) => Ok(()),
                }
            }
        }
    }

    /// Adds the nodes of the children of the node at a place, in order and side by side. A refusal
    /// may leave some of them.
    pub fn push_children(
        &mut self,
        alloc: Global,
        store: &DocStore,
        place: u64,
        limit: Option<u32>,
    ) -> Result<(), ListError>
        requires sound { IsSoundList store.now self.old }
        requires within { place < length self.old.nodes.items }
        ensures { AddsChildrenOf store.now limit self.old self.new
            (tree_in (node_trees store.now self.old) place) result }
    {
        // No memory holds so many nodes: so their places are below 2^32.
        if place > u64::from(u32::MAX) {
            return Err(ListError::OutOfMemory);
        }
        let place = place as u32;
        let node = self.nodes[place as usize];
        match node.source {
            NodeSource::Pending { waiting: _ } => Ok(()),
            NodeSource::Implicit { place: number } => {
                match self.push_place_children(alloc, store, place, node, number, limit) {
                    Err(e) => Err(e),
                    Ok(()) => Ok(()),
                }
            }
            NodeSource::Tile { document, tile } => {
                match self.push_tile_children(alloc, store, place, node, document, tile, limit) {
                    Err(e) => Err(e),
                    Ok(()) => Ok(()),
                }
            }
        }
    }
}
