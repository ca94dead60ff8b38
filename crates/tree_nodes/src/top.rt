//! Implicit roots.

ghost use Rattle.std.specs.Prelude.{◌≡◌, Some, option_map};
ghost use Rattle.tree_nodes.specs.Places.{root_by};
ghost use Rattle.tree_nodes.specs.Tiles.{part_at};
ghost use Rattle.tree_nodes.specs.Tops.{IsTopEntry};

use crate::documents::tile_of;
use doc_store::DocStore;
use implicit_walk::ImplicitRoot;
use tile_types::{Refine, Text};
use tile_uri::Base;
use volumes::Volume;

/// An implicit root (OGC 22-025r4, "Implicit Root Tile"), by its tile, with what nodes below it ask
/// for again and again.
#[derive(Drop)]
pub struct Top {
    pub name: Text,
    /// The number of its document.
    pub document: u32,
    /// Its own number there, in preorder.
    pub tile: u32,
    /// The address of its document, below which templates are resolved.
    pub base: Base,
    /// The number of its computed transform.
    pub transform: u32,
    pub refine: Refine,
    /// Under its transform, as the volume and the error are.
    pub request: Option<Volume>,
    pub volume: Volume,
    pub error: u64,
}

impl Top {
    /// What it says of the places below it. It takes no memory.
    pub(crate) fn root<'a>(&'a self, store: &'a DocStore) -> ImplicitRoot<'a>
        requires { IsTopEntry store.now self.now }
        ensures { option_map (root_by self.now)
            (part_at store.now self.now.document self.now.tile) ≡ Some result }
    {
        match tile_of(store, self.document, self.tile).implicit() {
            None => unreachable!(),
            Some(part) => ImplicitRoot::new(part, &self.base, self.volume, self.error),
        }
    }
}
