//! Subtrees beside tilesets.

use super::*;
use subtree_binary::{Subtree, Subtrees};

/// A subtree of a quadtree, of two levels and no contents.
const QUADTREE: Kind = Kind::Subtree {
    octree: false,
    levels: 2,
    contents: 0,
};

const ADDRESS: &str = "http://tiles/s/0.0.0.subtree";

/// The JSON chunk of a subtree whose tile bits are the first of the binary chunk.
const BITSTREAM: &str = concat!(
    r#"{"buffers":[{"byteLength":8}],"#,
    r#""bufferViews":[{"buffer":0,"byteOffset":0,"byteLength":1}],"#,
    r#""tileAvailability":{"bitstream":0},"childSubtreeAvailability":{"constant":0}}  "#
);

/// A binary chunk: from the lowest bit on, 1, 1, 0, 1 and 0.
const ELEVEN: [u8; 8] = [0x0b, 0, 0, 0, 0, 0, 0, 0];

/// The JSON chunk of a subtree in which each tile is there, and no content and nothing below.
const ALL_TILES: &str =
    r#"{"tileAvailability":{"constant":1},"childSubtreeAvailability":{"constant":0}}   "#;

/// A subtree of these chunks.
fn subtree(alloc: Global, json: &str, binary: &[u8]) -> Result<Bytes, AllocError> {
    let mut bytes = Vec::from_slice(alloc, b"subt\x01\0\0\0")?;
    bytes.extend_from_slice(&(json.len() as u64).to_le_bytes())?;
    bytes.extend_from_slice(&(binary.len() as u64).to_le_bytes())?;
    bytes.extend_from_slice(json.as_bytes())?;
    bytes.extend_from_slice(binary)?;
    Ok(Bytes::from_vec(bytes)?)
}

/// How many tile bits a subtree has, how many of the first three are set, and how many of all.
fn tile_bits(subtree: Option<&Subtree>) -> Option<(u64, u64, u64)> {
    let tiles = subtree?.tiles();
    let count = tiles.len();
    if count < 3 {
        return None;
    }
    Some((count, tiles.rank(3), tiles.rank(count)))
}

fn child_bits(subtree: Option<&Subtree>) -> Option<u64> {
    Some(subtree?.children().len())
}

#[test]
fn a_subtree_that_is_read(rt: HostRuntime) -> Result<(), Fail> {
    let alloc = rt.alloc();
    let mut store = nest(&rt, alloc)?;
    let bytes = subtree(alloc, BITSTREAM, &ELEVEN)?;
    assert_eq!(rt; bytes.len(), 200);
    keep(&rt, alloc, &mut store, QUADTREE, ADDRESS, bytes)?;
    let key = key(alloc, QUADTREE, ADDRESS)?;
    assert_eq!(rt; store.state_of(&key), DocState::Read);
    assert_eq!(rt; tile_bits(store.subtree(&key)), Some((5, 2, 3)));
    assert_eq!(rt; child_bits(store.subtree(&key)), Some(16));
    assert!(rt; !store.lost(&key));
    Ok(())
}

/// Keys of one address, each with how many tile bits and child bits its subtree has.
static SHAPES: [(Kind, u64, u64); 6] = [
    (QUADTREE, 5, 16),
    (
        Kind::Subtree {
            octree: false,
            levels: 3,
            contents: 0,
        },
        21,
        64,
    ),
    (
        Kind::Subtree {
            octree: true,
            levels: 2,
            contents: 0,
        },
        9,
        64,
    ),
    (
        Kind::Subtree {
            octree: false,
            levels: 2,
            contents: 1,
        },
        5,
        16,
    ),
    (
        Kind::Subtree {
            octree: false,
            levels: 12,
            contents: 0,
        },
        5_592_405,
        16_777_216,
    ),
    (
        Kind::Subtree {
            octree: true,
            levels: 8,
            contents: 2,
        },
        2_396_745,
        16_777_216,
    ),
];

/// The store has this subtree, of which each tile bit is set, by its key and by its number.
fn check_shape(
    rt: &impl Abort,
    alloc: Global,
    store: &DocStore,
    number: u32,
    shape: &(Kind, u64, u64),
) -> Result<(), Fail> {
    let (kind, tiles, children) = *shape;
    let key = key(alloc, kind, ADDRESS)?;
    let bits = Some((tiles, 3, tiles));
    assert!(rt; store.number_of(&key) == Some(number));
    assert!(rt; store.document_at(number) == Some(&key));
    assert!(rt; tile_bits(store.subtree(&key)) == bits);
    assert!(rt; tile_bits(store.subtree_at(number)) == bits);
    assert!(rt; child_bits(store.subtree(&key)) == Some(children));
    Ok(())
}

/// Keys that differ in the kind alone are other keys, with numbers of their own.
#[test]
fn subtrees_of_one_address(rt: HostRuntime) -> Result<(), Fail> {
    let alloc = rt.alloc();
    let mut store = nest(&rt, alloc)?;
    for (kind, _, _) in SHAPES.iter() {
        let bytes = subtree(alloc, ALL_TILES, &[])?;
        keep(&rt, alloc, &mut store, *kind, ADDRESS, bytes)?;
    }
    for (number, shape) in (1..7).zip(SHAPES.iter()) {
        check_shape(&rt, alloc, &store, number, shape)?;
    }
    Ok(())
}

/// A tileset and subtrees have one row of numbers.
#[test]
fn numbers_of_both_kinds(rt: HostRuntime) -> Result<(), Fail> {
    let alloc = rt.alloc();
    let mut store = nest(&rt, alloc)?;
    let bytes = subtree(alloc, ALL_TILES, &[])?;
    keep(&rt, alloc, &mut store, QUADTREE, ADDRESS, bytes)?;
    let bytes = document(alloc, "w.glb")?;
    keep(&rt, alloc, &mut store, Kind::Tileset, ADDRESS, bytes)?;
    assert_eq!(rt; store.number_of(&key(alloc, QUADTREE, ADDRESS)?), Some(1));
    assert_eq!(rt;
        store.number_of(&key(alloc, Kind::Tileset, ADDRESS)?),
        Some(2)
    );
    assert!(rt; store.document(1).is_none() && store.subtree_at(1).is_some());
    assert!(rt; store.document(2).is_some() && store.subtree_at(2).is_none());
    assert!(rt; store.document_at(3).is_none());
    Ok(())
}

/// Bytes that are no subtree: none, a header alone, another version, and a tileset.
static NO_SUBTREES: [&[u8]; 4] = [
    b"",
    b"subt\x01\0\0\0",
    b"subt\x02\0\0\0\0\0\0\0\0\0\0\0\0\0\0\0\0\0\0\0",
    br#"{"asset":{"version":"1.1"}}"#,
];

/// Bytes are loaded for this key, and no subtree is read from them.
fn check_refused(rt: &impl Abort, store: &DocStore, key: &Key, number: u32) {
    assert!(rt; store.state_of(key) == DocState::Refused);
    assert!(rt; store.subtree(key).is_none() && store.lost(key));
    assert!(rt; store.number_of(key) == Some(number));
    assert!(rt; store.subtree_at(number).is_none());
}

#[test]
fn refused_subtrees(rt: HostRuntime) -> Result<(), Fail> {
    let alloc = rt.alloc();
    let mut store = nest(&rt, alloc)?;
    for (number, bytes) in (1..5).zip(NO_SUBTREES.iter()) {
        let text = format!(in alloc; "http://tiles/s/{number}.subtree")?;
        let bytes = Bytes::copy_from_slice(alloc, bytes)?;
        keep(&rt, alloc, &mut store, QUADTREE, text.as_str(), bytes)?;
        check_refused(&rt, &store, &key(alloc, QUADTREE, text.as_str())?, number);
    }
    Ok(())
}

/// A subtree's bytes are no tileset.
#[test]
fn a_subtree_as_a_tileset(rt: HostRuntime) -> Result<(), Fail> {
    let alloc = rt.alloc();
    let mut store = nest(&rt, alloc)?;
    let bytes = subtree(alloc, ALL_TILES, &[])?;
    keep(&rt, alloc, &mut store, Kind::Tileset, ADDRESS, bytes)?;
    let key = key(alloc, Kind::Tileset, ADDRESS)?;
    assert_eq!(rt; store.state_of(&key), DocState::Refused);
    Ok(())
}

/// A subtree is absent for its levels alone.
#[test]
fn an_absent_subtree(rt: HostRuntime) -> Result<(), Fail> {
    let alloc = rt.alloc();
    let mut store = nest(&rt, alloc)?;
    store.reserve(1)?;
    let absent = key(alloc, QUADTREE, ADDRESS)?;
    check_kind(&rt, absent.kind);
    assert_eq!(rt; store.state_of(&absent), DocState::NotLoaded);
    assert!(rt; !store.lost(&absent));
    store.mark_absent(absent.copy(alloc)?);
    assert_eq!(rt; store.state_of(&absent), DocState::Absent);
    assert!(rt; store.subtree(&absent).is_none() && store.lost(&absent));
    assert_eq!(rt; store.number_of(&absent), None);
    for (kind, _, _) in SHAPES.iter().skip(1) {
        let other = key(alloc, *kind, ADDRESS)?;
        assert_eq!(rt; store.state_of(&other), DocState::NotLoaded);
        assert!(rt; !store.lost(&other));
    }
    Ok(())
}
