//! Subtrees in memory, and what is read of them.

mod availabilities;
mod chunks;
mod contents;
mod headers;
mod wholes;

use crate::{Subtree, SubtreeError, SubtreeField, read};
use avail_bits::Bits;
use bytes::Bytes;
use std::alloc::{AllocError, Global};
use std::process::Abort;
use std::test::Fail;

/// The JSON chunk of a quadtree's subtree of two levels whose tile bits are a bitstream.
const TWO_LEVELS: &str = concat!(
    r#"{"buffers":[{"byteLength":8}],"#,
    r#""bufferViews":[{"buffer":0,"byteOffset":0,"byteLength":1}],"#,
    r#""tileAvailability":{"bitstream":0},"childSubtreeAvailability":{"constant":0}}  "#
);

/// Its binary chunk.
const ELEVEN: [u8; 8] = [0x0b, 0, 0, 0, 0, 0, 0, 0];

/// A header and what stands behind it.
fn with_header(
    alloc: Global,
    json_length: u64,
    binary_length: u64,
    behind: &[&[u8]],
) -> Result<Bytes, AllocError> {
    let mut bytes = Vec::from_slice(alloc, b"subt\x01\0\0\0")?;
    bytes.extend_from_slice(&json_length.to_le_bytes())?;
    bytes.extend_from_slice(&binary_length.to_le_bytes())?;
    for piece in behind {
        bytes.extend_from_slice(piece)?;
    }
    Bytes::copy_from_slice(alloc, &bytes)
}

/// A subtree of these chunks.
fn of_chunks(alloc: Global, json: &str, binary: &[u8]) -> Result<Bytes, AllocError> {
    let behind = [json.as_bytes(), binary];
    with_header(alloc, json.len() as u64, binary.len() as u64, &behind)
}

/// What is read of a quadtree's subtree of two levels.
fn outcome(
    alloc: Global,
    json: &str,
    binary: &[u8],
    contents: u32,
) -> Result<Subtree, SubtreeError> {
    let bytes = of_chunks(alloc, json, binary)?;
    read(alloc, &bytes, false, 2, contents)
}

/// The bits are these, each written as 0 or 1.
fn are(bits: &Bits, written: &str) -> bool {
    if bits.len() != written.len() as u64 {
        return false;
    }
    for (i, digit) in written.bytes().enumerate() {
        let i = i as u64;
        if i < bits.len() && (bits.rank(i) < bits.rank(i + 1)) != (digit == b'1') {
            return false;
        }
    }
    true
}

/// A JSON chunk, and the first cause why the subtree isn't read.
type Row = (&'static str, SubtreeError);

/// Reads each subtree, which has 8 bytes in its binary chunk and two contents, and compares the
/// cause.
fn check_causes<R: AllocGlobal + Abort>(rt: &R, rows: &[Row]) -> Result<(), Fail> {
    for (json, cause) in rows {
        let met = outcome(rt.alloc(), json, &ELEVEN, 2).err();
        assert_eq!(rt; met, Some(*cause), "of {json}");
    }
    Ok(())
}

const TOP: SubtreeError = SubtreeError::Shape {
    field: SubtreeField::Top,
};

const BUFFERS: SubtreeError = SubtreeError::Shape {
    field: SubtreeField::Buffers,
};

const VIEWS: SubtreeError = SubtreeError::Shape {
    field: SubtreeField::Views,
};

const TILES: SubtreeError = SubtreeError::Shape {
    field: SubtreeField::TileAvailability,
};

const CONTENTS: SubtreeError = SubtreeError::Shape {
    field: SubtreeField::ContentAvailability,
};

const CHILDREN: SubtreeError = SubtreeError::Shape {
    field: SubtreeField::ChildAvailability,
};
