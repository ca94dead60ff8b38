//! Stores of a document and its subtree.

use bytes::Bytes;
use doc_store::{Added, DOCUMENT_LIMIT, DocState, DocStore, is_document_kind};
use std::alloc::{AllocError, Global};
use std::process::Abort;
use std::test::Fail;
use tile_types::{Key, Kind, Text};
use tile_uri::Base;

/// A document up to its schema, and behind it: a quadtree of two levels in one subtree.
const HEAD: &str = r#"{"asset":{"version":"1.1"},"geometricError":10"#;

const TWO_LEVELS: &str = concat!(
    r#","root":{"boundingVolume":{"box":[0,0,0,8,0,0,0,8,0,0,0,8]},"geometricError":4,"#,
    r#""implicitTiling":{"subdivisionScheme":"QUADTREE","subtreeLevels":2,"#,
    r#""availableLevels":2,"subtrees":{"uri":"s.subtree"}}}}"#
);

/// A class with one whole number.
pub(super) const HEIGHT: &str = concat!(
    r#","schema":{"classes":{"C":{"properties":{"h":{"type":"SCALAR","#,
    r#""componentType":"UINT8"}}}}}"#
);

/// A schema that is refused.
pub(super) const UNKNOWN_ENUM: &str =
    r#","schema":{"classes":{"C":{"properties":{"h":{"type":"ENUM","enumType":"E"}}}}}"#;

/// A subtree of three tiles, up to its table.
const VIEWS: &str = concat!(
    r#"{"buffers":[{"byteLength":16}],"bufferViews":[{"buffer":0,"byteLength":1},"#,
    r#"{"buffer":0,"byteOffset":8,"byteLength":3}],"tileAvailability":{"bitstream":0},"#,
    r#""childSubtreeAvailability":{"constant":0},"tileMetadata":0,"propertyTables":["#
);

pub(super) const THREE_ROWS: &str = r#"{"class":"C","count":3,"properties":{"h":{"values":1}}}]}"#;

pub(super) const TWO_ROWS: &str = r#"{"class":"C","count":2,"properties":{"h":{"values":1}}}]}"#;

pub(super) const UNKNOWN_CLASS: &str =
    r#"{"class":"X","count":3,"properties":{"h":{"values":1}}}]}"#;

/// Tiles 0, 1 and 3, and the heights 10, 20 and 30.
pub(super) const CHUNK: &[u8] = &[0x0b, 0, 0, 0, 0, 0, 0, 0, 10, 20, 30, 0, 0, 0, 0, 0];

const KIND: Kind = Kind::Subtree {
    octree: false,
    levels: 2,
    contents: 0,
};

/// A subtree of this table.
fn subtree(alloc: Global, table: &str, chunk: &[u8]) -> Result<Bytes, AllocError> {
    let mut json = String::from_str(alloc, VIEWS)?;
    json.push_str(table)?;
    for _ in 0..(8 - json.len() % 8) % 8 {
        json.push(' ')?;
    }
    let mut bytes = Vec::from_slice(alloc, b"subt\x01\0\0\0")?;
    bytes.extend_from_slice(&(json.len() as u64).to_le_bytes())?;
    bytes.extend_from_slice(&(chunk.len() as u64).to_le_bytes())?;
    bytes.extend_from_slice(json.as_bytes())?;
    bytes.extend_from_slice(chunk)?;
    Ok(Bytes::from_vec(bytes)?)
}

/// A store of a document with this schema, and of its subtree with this table.
pub(super) fn store_of(
    rt: &impl Abort,
    alloc: Global,
    schema: &str,
    table: &str,
    chunk: &[u8],
) -> Result<DocStore, Fail> {
    let base = Base::new(alloc, "http://tiles/")?;
    let root = base.resolve(alloc, "t.json")?;
    let text = format!(in alloc; "{HEAD}{schema}{TWO_LEVELS}")?;
    let bytes = Bytes::copy_from_slice(alloc, text.as_bytes())?;
    assert!(rt; bytes.len() <= DOCUMENT_LIMIT as usize);
    let mut store = DocStore::open(alloc, &root, bytes)?;
    let key = Key {
        kind: KIND,
        address: Text::new(alloc, "http://tiles/s.subtree")?,
    };
    let bytes = subtree(alloc, table, chunk)?;
    assert!(rt; is_document_kind(key.kind));
    assert!(rt; bytes.len() <= DOCUMENT_LIMIT as usize);
    assert!(rt; store.state_of(&key) == DocState::NotLoaded);
    assert!(rt; store.add(alloc, key, bytes)? == Added::Kept);
    Ok(store)
}
