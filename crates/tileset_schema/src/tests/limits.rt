//! Documents at the limits, and the size of a tile in memory.

use super::{TILE, TOP, joined, outcome};
use crate::{DocumentError, TILE_LIMIT, Written};
use std::alloc::{AllocError, Global};
use std::test::Fail;

/// A text of `len` bytes that begins with `front`.
fn padded(alloc: Global, front: &str, len: usize) -> Result<String, AllocError> {
    let mut text = String::from_str(alloc, front)?;
    for _ in front.len()..len {
        text.push('a')?;
    }
    Ok(text)
}

/// The document of a tile whose content has a uri of `len` bytes, which is its own address.
fn long_address(alloc: Global, len: usize) -> Result<Vec<u8>, AllocError> {
    let uri = padded(alloc, "http://tiles/", len)?;
    joined(
        alloc,
        &[TOP, TILE, r#","content":{"uri":""#, uri.as_str(), r#""}}}"#],
    )
}

/// The document of a root with so many children.
fn children(alloc: Global, count: u32) -> Result<Vec<u8>, AllocError> {
    let mut bytes = joined(alloc, &[TOP, TILE, r#","children":["#])?;
    for i in 0..count {
        if i > 0 {
            bytes.push(b',')?;
        }
        bytes.extend_from_slice(TILE.as_bytes())?;
        bytes.push(b'}')?;
    }
    bytes.extend_from_slice(b"]}}")?;
    Ok(bytes)
}

#[test]
fn the_most_tiles(rt: HostRuntime) -> Result<(), Fail> {
    let bytes = children(rt.alloc(), TILE_LIMIT - 1)?;
    let document = outcome(rt.alloc(), &bytes)?;
    assert_eq!(rt; document.tiles().len(), 65_535);
    let root = document.tiles().first().ok_or("no root")?;
    assert_eq!(rt; root.size(), 65_535);
    Ok(())
}

#[test]
fn one_tile_more(rt: HostRuntime) -> Result<(), Fail> {
    let bytes = children(rt.alloc(), TILE_LIMIT)?;
    let cause = outcome(rt.alloc(), &bytes).err();
    assert_eq!(rt; cause, Some(DocumentError::TooManyTiles));
    Ok(())
}

#[test]
fn the_longest_address(rt: HostRuntime) -> Result<(), Fail> {
    let bytes = long_address(rt.alloc(), 4_096)?;
    assert_eq!(rt; outcome(rt.alloc(), &bytes).err(), None);
    let bytes = long_address(rt.alloc(), 4_097)?;
    let cause = outcome(rt.alloc(), &bytes).err();
    assert_eq!(rt; cause, Some(DocumentError::BadAddress { tile: 0 }));
    Ok(())
}

/// The document of a root with a member of lists within lists, so many.
fn nested_lists(alloc: Global, count: usize) -> Result<Vec<u8>, AllocError> {
    let mut bytes = joined(alloc, &[TOP, TILE, r#","extras":"#])?;
    for _ in 0..count {
        bytes.push(b'[')?;
    }
    for _ in 0..count {
        bytes.push(b']')?;
    }
    bytes.extend_from_slice(b"}}")?;
    Ok(bytes)
}

/// The document of a root with a child that has a child, and so on, so many tiles in all.
fn nested_tiles(alloc: Global, count: usize) -> Result<Vec<u8>, AllocError> {
    let mut bytes = joined(alloc, &[TOP, TILE])?;
    for _ in 1..count {
        bytes.extend_from_slice(br#","children":["#)?;
        bytes.extend_from_slice(TILE.as_bytes())?;
    }
    for _ in 1..count {
        bytes.extend_from_slice(b"}]")?;
    }
    bytes.extend_from_slice(b"}}")?;
    Ok(bytes)
}

#[test]
fn the_deepest_member(rt: HostRuntime) -> Result<(), Fail> {
    let bytes = nested_lists(rt.alloc(), 254)?;
    assert_eq!(rt; outcome(rt.alloc(), &bytes)?.tiles().len(), 1);
    let bytes = nested_lists(rt.alloc(), 255)?;
    let cause = outcome(rt.alloc(), &bytes).err();
    assert_eq!(rt; cause, Some(DocumentError::NotJson));
    Ok(())
}

#[test]
fn the_deepest_tree(rt: HostRuntime) -> Result<(), Fail> {
    let bytes = nested_tiles(rt.alloc(), 127)?;
    let document = outcome(rt.alloc(), &bytes)?;
    assert_eq!(rt; document.tiles().len(), 127);
    assert_eq!(rt; document.tiles().last().map(|tile| tile.size()), Some(1));
    let bytes = nested_tiles(rt.alloc(), 128)?;
    let cause = outcome(rt.alloc(), &bytes).err();
    assert_eq!(rt; cause, Some(DocumentError::NotJson));
    Ok(())
}

#[test]
fn the_size_of_a_tile(rt: HostRuntime) {
    assert!(rt; size_of::<Written>() <= 96);
}
