//! What nodes speak of by numbers.

ghost use Rattle.std.specs.Prelude.{◌≡◌, Some, IfOk, option_map};
ghost use Rattle.tree_nodes.specs.Places.{HasNumber, HasTile, IsFoundAt, IsTop, top_in};
ghost use Rattle.tree_nodes.specs.Entries.{IsEntry};
ghost use Rattle.tree_nodes.specs.Fronts.{Continues};
ghost use Rattle.tree_nodes.specs.declared.found.FoundTile.TheVariants.{Awaited};

use crate::finding::subtree_in;
use crate::node::Waiting;
use crate::place_contents::push_contents;
use crate::place_entry::{PlaceEntry, SubtreeState};
use crate::stretch::{Stretch, next_number};
use crate::top::Top;
use doc_store::DocStore;
use fixed_geometry::Affine;
use implicit_walk::{ImplicitRoot, Place, error_at};
use std::alloc::{AllocError, Global};
use tile_types::{Key, Text};
use tile_uri::Address;

/// What the nodes of a list speak of by numbers.
#[derive(Drop)]
pub struct Tables {
    /// The computed transforms, of which the first is the identity.
    pub transforms: Vec<Affine>,
    pub waiting: Vec<Waiting>,
    /// The implicit roots.
    pub tops: Vec<Top>,
    pub places: Vec<PlaceEntry>,
    /// The addresses of the contents of implicit tiles, but for external tilesets.
    pub contents: Vec<Text>,
    /// The addresses of external tilesets among them.
    pub external: Vec<Address>,
}

impl Tables {
    /// What the implicit root of this number says of the places below it. It takes no memory.
    pub(crate) fn root<'a>(&'a self, store: &'a DocStore, number: u32) -> ImplicitRoot<'a>
        requires { HasNumber store.now self.now number }
        ensures { option_map (λ top. top.root) (top_in store.now self.now number) ≡ Some result }
    {
        self.tops[number as usize].root(store)
    }

    /// Adds the contents of the tile at a place, and answers its entry.
    pub(crate) fn make_tile(
        &mut self,
        alloc: Global,
        store: &DocStore,
        top: u32,
        subtree: u32,
        at: Place,
    ) -> Result<PlaceEntry, AllocError>
        requires { HasTile store.now self.old top subtree at }
        ensures made { IfOk result (IsEntry store.now self.old self.new top at) }
        ensures continues { Continues self.old self.new }
    {
        let first = next_number(self.contents.len())?;
        let first_external = next_number(self.external.len())?;
        let root = self.tops[top as usize].root(store);
        let parts = subtree_in(store, &root, at, subtree);
        push_contents(
            alloc,
            &root,
            parts,
            at,
            &mut self.contents,
            &mut self.external,
        )?;
        let end = next_number(self.contents.len())?;
        let end_external = next_number(self.external.len())?;
        Ok(PlaceEntry {
            at,
            top,
            state: SubtreeState::Read { subtree },
            contents: Stretch {
                first,
                count: end - first,
            },
            external: Stretch {
                first: first_external,
                count: end_external - first_external,
            },
        })
    }

    /// Adds the key that a place waits for, and answers its entry.
    pub(crate) fn make_awaited(
        &mut self,
        store: &DocStore,
        top: u32,
        at: Place,
        key: Key,
    ) -> Result<PlaceEntry, AllocError>
        requires { IsFoundAt store.now self.old top at (Awaited key) }
        ensures made { IfOk result (IsEntry store.now self.old self.new top at) }
        ensures continues { Continues self.old self.new }
    {
        let error = error_at(&self.root(store, top), at);
        let waiting = next_number(self.waiting.len())?;
        self.waiting.push(Waiting { key, error })?;
        Ok(PlaceEntry {
            at,
            top,
            state: SubtreeState::Awaited { waiting },
            contents: Stretch { first: 0, count: 0 },
            external: Stretch { first: 0, count: 0 },
        })
    }
}
