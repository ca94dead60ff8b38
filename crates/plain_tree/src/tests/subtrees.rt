//! Stores of tilesets and subtrees.

use super::{Further, store_with};
use bytes::Bytes;
use doc_store::{Added, DOCUMENT_LIMIT, DocState, DocStore, is_document_kind};
use std::alloc::{AllocError, Global};
use std::process::Abort;
use std::test::Fail;
use tile_types::{Key, Kind, Text};

/// A subtree: its address, its kind, and its JSON and binary chunks unless it is absent.
pub(super) type Subtree = (&'static str, Kind, Option<(&'static str, &'static [u8])>);

/// Subtrees of the quadtree that `&` stands for, whose tiles have no content.
pub(super) const BARE: Kind = Kind::Subtree {
    octree: false,
    levels: 2,
    contents: 0,
};

/// The same of tiles with one content.
pub(super) const ONE_EACH: Kind = Kind::Subtree {
    octree: false,
    levels: 2,
    contents: 1,
};

/// The same of tiles with three.
pub(super) const THREE_EACH: Kind = Kind::Subtree {
    octree: false,
    levels: 2,
    contents: 3,
};

/// A subtree of these chunks.
fn bytes_of(alloc: Global, json: &str, binary: &[u8]) -> Result<Bytes, AllocError> {
    let mut bytes = Vec::from_slice(alloc, b"subt\x01\0\0\0")?;
    bytes.extend_from_slice(&(json.len() as u64).to_le_bytes())?;
    bytes.extend_from_slice(&(binary.len() as u64).to_le_bytes())?;
    bytes.extend_from_slice(json.as_bytes())?;
    bytes.extend_from_slice(binary)?;
    Ok(Bytes::from_vec(bytes)?)
}

/// Adds a subtree, or marks it as absent.
fn put_subtree(
    rt: &impl Abort,
    alloc: Global,
    store: &mut DocStore,
    subtree: &Subtree,
) -> Result<(), Fail> {
    let (address, kind, chunks) = subtree;
    let key = Key {
        kind: *kind,
        address: Text::new(alloc, address)?,
    };
    assert!(rt; is_document_kind(key.kind));
    let Some((json, binary)) = chunks else {
        store.reserve(1)?;
        assert!(rt; store.state_of(&key) == DocState::NotLoaded);
        store.mark_absent(key);
        return Ok(());
    };
    let bytes = bytes_of(alloc, json, binary)?;
    assert!(rt; bytes.len() <= DOCUMENT_LIMIT as usize);
    assert!(rt; store.state_of(&key) == DocState::NotLoaded);
    assert!(rt; store.add(alloc, key, bytes)? == Added::Kept);
    Ok(())
}

/// A store of the document `t.json` of this root tile, of further documents, and of subtrees.
pub(super) fn store_of_all(
    rt: &impl Abort,
    alloc: Global,
    tile: &str,
    further: &[Further],
    subtrees: &[Subtree],
) -> Result<DocStore, Fail> {
    let mut store = store_with(rt, alloc, tile, further)?;
    for subtree in subtrees {
        put_subtree(rt, alloc, &mut store, subtree)?;
    }
    Ok(store)
}
