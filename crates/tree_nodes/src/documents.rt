//! What the store knows of a tileset, and the tiles of its documents.

ghost use Rattle.std.specs.Prelude.{◌≡◌, ◌<◌, ◌^◌, None, IfOk, IfSome, length};
ghost use Rattle.tile_types.specs.declared.key.Kind.TheVariants as kind;
ghost use Rattle.doc_store.specs.Store.{docs};
ghost use Rattle.doc_store.specs.States.{rows_at};
ghost use Rattle.tree_nodes.specs.Found.{IsFound, IsNumber};
ghost use Rattle.tree_nodes.specs.Tiles.{HasRow, IsDocument, IsTileAt};

use crate::found::Found;
use doc_store::{DocState, DocStore};
use std::alloc::{AllocError, Global};
use tile_types::{Key, Kind, Text};
use tileset_schema::Written;

/// The number of the tileset at an address, where it is read.
fn number_of(store: &DocStore, key: &Key) -> Option<u32>
    requires { key.now.kind ≡ kind.Tileset }
    ensures read { IfSome result (λ number. IsNumber store.now key.now.address number) }
    ensures unread { result ≡ None → rows_at (docs store.now) key.now.address ≡ None }
{
    let number = store.number_of(key)?;
    match store.document(number) {
        None => None,
        Some(_) => Some(number),
    }
}

/// What is known of the tileset at an address.
pub(crate) fn find(alloc: Global, store: &DocStore, address: &Text) -> Result<Found, AllocError>
    ensures { IfOk result (λ found. IsFound store.now address.now found) }
{
    let key = Key {
        kind: Kind::Tileset,
        address: address.copy(alloc)?,
    };
    if let Some(document) = number_of(store, &key) {
        return Ok(Found::Here { document });
    }
    match store.state_of(&key) {
        DocState::NotLoaded => Ok(Found::Waiting { key }),
        _ => Ok(Found::Lost),
    }
}

/// The tile of this number in the document of that number.
pub(crate) fn tile_of(store: &DocStore, document: u32, tile: u32) -> &Written
    requires { IsTileAt store.now document tile }
    ensures { HasRow store.now document tile result.now }
{
    match store.document(document) {
        None => unreachable!(),
        Some(found) => {
            let tiles = found.tiles();
            &tiles[tile as usize]
        }
    }
}

/// How many tiles a document has.
pub(crate) fn tile_count(tiles: &[Written]) -> u32
    requires { IsDocument tiles.now }
    ensures count { result ≡ length tiles.now }
    ensures fits { length tiles.now < 2 ^ 32 }
{
    tiles[0].size()
}
