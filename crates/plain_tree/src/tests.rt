//! Trees of stores of documents. Expected values are worked out by hand from the definitions.

ghost use Rattle.std.specs.Prelude.{◌≡◌, IfOk};
ghost use Rattle.tile_types.specs.declared.key.Kind.TheVariants.{Tileset};

mod depths;
mod implicit;
mod lines;
mod nest;
mod sizes;
mod states;
mod steps;
mod subtrees;
mod whole;

use bytes::Bytes;
use doc_store::{Added, DOCUMENT_LIMIT, DocState, DocStore};
use std::alloc::{AllocError, Global};
use std::process::Abort;
use std::test::Fail;
use tile_types::{Key, Kind, Text};
use tile_uri::{Address, Base};

/// A document besides the root document: its address, and its root tile unless it is absent.
type Further = (&'static str, Option<&'static str>);

/// What `$` stands for in the tiles below: a volume, and an error of 1,000,000 micrometres.
const VOLUME: &str = r#""boundingVolume":{"sphere":[0,0,0,5]},"geometricError":1"#;

/// What `%` stands for: a box, and an error of 4,000,000 micrometres.
const BOX: &str = r#""boundingVolume":{"box":[0,0,0,8,0,0,0,8,0,0,0,8]},"geometricError":4"#;

/// What `&` stands for behind it: a quadtree of three levels, in subtrees of two.
const QUADTREE: &str = r#","implicitTiling":{"subdivisionScheme":"QUADTREE","subtreeLevels":2,
    "availableLevels":3,"subtrees":{"uri":"s/{level}.{x}.{y}.subtree"}}"#;

/// The bytes of a document of this root tile.
fn document(alloc: Global, tile: &str) -> Result<Bytes, AllocError> {
    let front = r#"{"asset":{"version":"1.1"},"geometricError":9,"root":"#;
    let mut text = String::from_str(alloc, front)?;
    for c in tile.chars() {
        match c {
            '$' => text.push_str(VOLUME)?,
            '%' => text.push_str(BOX)?,
            '&' => text.push_str(QUADTREE)?,
            _ => text.push(c)?,
        }
    }
    text.push('}')?;
    Bytes::copy_from_slice(alloc, text.as_bytes())
}

fn tileset_key(alloc: Global, address: &str) -> Result<Key, AllocError>
    ensures { IfOk result (λ key. key.kind ≡ Tileset) }
{
    Ok(Key {
        kind: Kind::Tileset,
        address: Text::new(alloc, address)?,
    })
}

/// Where the root document stands.
fn root_address(alloc: Global) -> Result<Address, Fail> {
    let base = Base::new(alloc, "http://tiles/")?;
    Ok(base.resolve(alloc, "t.json")?)
}

/// A store of the document `t.json` of this root tile.
fn store_of(rt: &impl Abort, alloc: Global, tile: &str) -> Result<DocStore, Fail> {
    let root = root_address(alloc)?;
    let bytes = document(alloc, tile)?;
    assert!(rt; bytes.len() <= DOCUMENT_LIMIT as usize);
    Ok(DocStore::open(alloc, &root, bytes)?)
}

/// Adds a document of this root tile.
fn add(
    rt: &impl Abort,
    alloc: Global,
    store: &mut DocStore,
    address: &str,
    tile: &str,
) -> Result<(), Fail> {
    let key = tileset_key(alloc, address)?;
    let bytes = document(alloc, tile)?;
    assert!(rt; bytes.len() <= DOCUMENT_LIMIT as usize);
    assert!(rt; store.state_of(&key) == DocState::NotLoaded);
    assert!(rt; store.add(alloc, key, bytes)? == Added::Kept);
    Ok(())
}

/// Marks a document as absent.
fn mark(rt: &impl Abort, alloc: Global, store: &mut DocStore, address: &str) -> Result<(), Fail> {
    let key = tileset_key(alloc, address)?;
    assert!(rt; store.state_of(&key) == DocState::NotLoaded);
    store.reserve(1)?;
    store.mark_absent(key);
    Ok(())
}

/// Adds a document, or marks it as absent.
fn put(
    rt: &impl Abort,
    alloc: Global,
    store: &mut DocStore,
    document: &Further,
) -> Result<(), Fail> {
    match document {
        (address, Some(tile)) => add(rt, alloc, store, address, tile),
        (address, None) => mark(rt, alloc, store, address),
    }
}

/// A store of the document `t.json` of this root tile, and of further documents.
fn store_with(
    rt: &impl Abort,
    alloc: Global,
    tile: &str,
    further: &[Further],
) -> Result<DocStore, Fail> {
    let mut store = store_of(rt, alloc, tile)?;
    for document in further {
        put(rt, alloc, &mut store, document)?;
    }
    Ok(store)
}
