//! How implicit roots are kept (OGC 22-025r4, "Implicit Root Tile").

ghost use Rattle.std.specs.Prelude.{◌≡◌, ◌≢◌, ◌<◌, ◌^◌, None, Some, IfOk, IfSome, length};
ghost use Rattle.volumes.specs.Limits.{IsBoxInRange};
ghost use Rattle.tile_uri.specs.Addresses.{IsAddress};
ghost use Rattle.tileset_schema.specs.Implicit.{HasLevels, ImplicitParts};
ghost use Rattle.tree_nodes.specs.Tiles.{HasRow, IsTileAt, address_in, document_rows};
ghost use Rattle.tree_nodes.specs.Nodes.{IsSoundList};
ghost use Rattle.tree_nodes.specs.Growth.{AddsTop, CanTake, Extends, handed_top};

use crate::names::name_below;
use crate::node::Handed;
use crate::node_list::{NodeList, transform_below};
use crate::reading::moved_request;
use crate::stretch::next_number;
use crate::top::Top;
use doc_store::DocStore;
use std::alloc::{AllocError, Global};
use tile_uri::Base;
use tileset_schema::Written;

/// The base of the templates of a document.
fn base_of(alloc: Global, store: &DocStore, document: u32) -> Result<Base, AllocError>
    requires read { document_rows store.now document ≢ None }
    requires address { IsAddress (address_in store.now document) }
    ensures { IfOk result (λ base. base ≡ address_in store.now document) }
{
    let Some(key) = store.document_at(document) else {
        unreachable!();
    };
    match Base::new(alloc, key.address.as_str()) {
        Ok(base) => Ok(base),

        // An address stands for its own text, so that only memory can be wanting.
        Err(_) => Err(AllocError),
    }
}

/// What a tile says of implicit tiles below it, if it does, is within its limits.
fn tell_limits(own: &Written)
    ensures levels { IfSome own.now.parts.implicit
        (λ part. HasLevels part.octree part.subtree_levels part.available_levels) }
    ensures contents { IfSome own.now.parts.implicit (λ part. length part.contents < 2 ^ 32) }
    ensures boxed { IfSome own.now.parts.implicit (λ part. IsBoxInRange own.now.parts.volume) }
{
    let Some(part) = own.implicit() else {
        return;
    };
    let _levels = part.available_levels();
    let _contents = part.contents();
}

impl NodeList {
    /// Keeps a tile that says this of itself and of implicit tiles below it, and answers its number
    /// among the implicit roots.
    pub(crate) fn add_top(
        &mut self,
        alloc: Global,
        store: &DocStore,
        handed: Handed,
        document: u32,
        tile: u32,
        own: &Written,
    ) -> Result<u32, AllocError>
        requires sound { IsSoundList store.now self.old }
        requires handed { CanTake self.old handed }
        requires there { IsTileAt store.now document tile }
        requires own { HasRow store.now document tile own.now }
        ensures top { (part : ImplicitParts) → own.now.parts.implicit ≡ Some part
            → IfOk result (AddsTop store.now
            (handed_top store.now self.old handed document own.now.parts part) self.old self.new) }
        ensures extends { Extends self.old self.new }
    {
        let name = name_below(alloc, store, self, handed)?;
        let base = base_of(alloc, store, document)?;
        let transform = transform_below(&mut self.tables.transforms, handed.transform, own)?;
        let map = &self.tables.transforms[transform as usize];
        let top = Top {
            name,
            document,
            tile,
            base,
            transform,
            refine: own.refine().unwrap_or(handed.refine),
            request: moved_request(own, map),
            volume: own.volume().moved(map),
            error: volumes::moved_error(own.error(), map),
        };
        tell_limits(own);
        let number = next_number(self.tables.tops.len())?;
        self.tables.tops.push(top)?;
        Ok(number)
    }
}
