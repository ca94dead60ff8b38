//! What is written, byte for byte, and that it is read again.

use crate::{BoolList, BoolLists, SubtreeSpec, write};
use avail_bits::Bits;
use bytes::Bytes;
use std::alloc::{AllocError, Global};
use std::process::Abort;
use std::test::Fail;
use subtree_binary::{Subtree, SubtreeError, read};

/// A row of bits, each written as 0 or 1.
fn row(alloc: Global, digits: &str) -> Result<BoolList, AllocError> {
    let mut bits = BoolList::new(alloc);
    for digit in digits.bytes() {
        bits.push(digit == b'1')?;
    }
    Ok(bits)
}

/// What is written of a quadtree.
fn file(
    alloc: Global,
    levels: u8,
    tiles: &str,
    contents: &[&str],
    children: &str,
) -> Result<Vec<u8>, AllocError> {
    let mut rows = BoolLists::new(alloc);
    for content in contents {
        rows.push(row(alloc, content)?)?;
    }
    let spec = SubtreeSpec {
        octree: false,
        levels,
        tiles: row(alloc, tiles)?,
        contents: rows,
        children: row(alloc, children)?,
    };
    write(alloc, &spec)
}

/// The bytes are these, behind a header with the lengths of the chunks.
fn check_file<R: AllocGlobal + Abort>(
    rt: &R,
    file: &[u8],
    header: &[u8; 24],
    json: &str,
    binary: &[u8],
) -> Result<(), Fail> {
    let mut bytes = Vec::from_slice(rt.alloc(), header.as_slice())?;
    bytes.extend_from_slice(json.as_bytes())?;
    bytes.extend_from_slice(binary)?;
    assert_eq!(rt; file, bytes.as_slice());
    Ok(())
}

/// The tiles of a quadtree of two levels are a bitstream.
const STREAM: &str = concat!(
    r#"{"buffers":[{"byteLength":8}],"#,
    r#""bufferViews":[{"buffer":0,"byteOffset":0,"byteLength":1}],"#,
    r#""tileAvailability":{"bitstream":0},"childSubtreeAvailability":{"constant":0}}  "#
);

#[test]
fn two_levels(rt: HostRuntime) -> Result<(), Fail> {
    let file = file(rt.alloc(), 2, "11010", &[], "0000000000000000")?;
    assert_eq!(rt; file.len(), 200);
    let header = b"subt\x01\0\0\0\xa8\0\0\0\0\0\0\0\x08\0\0\0\0\0\0\0";
    check_file(&rt, &file, header, STREAM, b"\x0b\0\0\0\0\0\0\0")
}

/// All is constant.
const CONSTANT: &str = concat!(
    r#"{"tileAvailability":{"constant":1},"contentAvailability":[{"constant":1}],"#,
    r#""childSubtreeAvailability":{"constant":0}}    "#
);

#[test]
fn one_level(rt: HostRuntime) -> Result<(), Fail> {
    let file = file(rt.alloc(), 1, "1", &["1"], "0000")?;
    assert_eq!(rt; file.len(), 144);
    let header = b"subt\x01\0\0\0\x78\0\0\0\0\0\0\0\0\0\0\0\0\0\0\0";
    check_file(&rt, &file, header, CONSTANT, b"")
}

/// Two contents of three, and the children, are bitstreams.
const MANY: &str = concat!(
    r#"{"buffers":[{"byteLength":24}],"bufferViews":["#,
    r#"{"buffer":0,"byteOffset":0,"byteLength":1},"#,
    r#"{"buffer":0,"byteOffset":8,"byteLength":1},"#,
    r#"{"buffer":0,"byteOffset":16,"byteLength":2}],"#,
    r#""tileAvailability":{"constant":1},"#,
    r#""contentAvailability":[{"bitstream":0},{"constant":0},{"bitstream":1}],"#,
    r#""childSubtreeAvailability":{"bitstream":2}}   "#
);

/// Its binary chunk.
const STREAMS: &[u8] = b"\x10\0\0\0\0\0\0\0\x0f\0\0\0\0\0\0\0\x01\x80\0\0\0\0\0\0";

#[test]
fn several_streams(rt: HostRuntime) -> Result<(), Fail> {
    let alloc = rt.alloc();
    let contents = ["00001", "00000", "11110"];
    let file = file(alloc, 2, "11111", &contents, "1000000000000001")?;
    let header = b"subt\x01\0\0\0\x48\x01\0\0\0\0\0\0\x18\0\0\0\0\0\0\0";
    check_file(&rt, &file, header, MANY, STREAMS)?;
    let bytes = Bytes::from_vec(file)?;
    match read(alloc, &bytes, false, 2, 3) {
        Ok(subtree) => assert!(rt; is_read(&subtree)),
        Err(cause) => assert!(rt; false, "{cause}"),
    }
    Ok(())
}

/// How many bits there are, and how many of them are set, in each row of the subtree.
fn is_read(subtree: &Subtree) -> bool {
    match (subtree.content(0), subtree.content(1), subtree.content(2)) {
        (Some(a), Some(b), Some(c)) => {
            has(subtree.tiles(), 5, 5)
                && has(a, 5, 1)
                && has(b, 5, 0)
                && has(c, 5, 4)
                && has(subtree.children(), 16, 2)
        }
        _ => false,
    }
}

fn has(bits: &Bits, count: u64, set: u64) -> bool {
    bits.len() == count && bits.rank(bits.len()) == set
}
