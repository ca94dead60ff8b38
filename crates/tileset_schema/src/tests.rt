//! Documents in memory, and what is read of them.

mod accessors;
mod content_causes;
mod implicit_causes;
mod implicit_parts;
mod limits;
mod tile_causes;
mod top_causes;
mod volume_causes;

use crate::{Document, DocumentError, read};
use std::alloc::{AllocError, Global};
use std::process::Abort;
use std::test::Fail;
use tile_uri::Base;

/// Where the documents stand.
const BASE: &str = "http://tiles/x/t.json";

/// A document up to its root tile.
const TOP: &str = r#"{"asset":{"version":"1.1"},"geometricError":1,"root":"#;

/// A tile in a sphere of a metre, up to its further members.
const TILE: &str = r#"{"boundingVolume":{"sphere":[0,0,0,1]},"geometricError":1"#;

/// A tile in a box of two metres, up to its further members.
const BOXED: &str = r#"{"boundingVolume":{"box":[0,0,0,1,0,0,0,1,0,0,0,1]},"geometricError":1"#;

/// A document in pieces, and the first cause why it isn't read.
type Row = (&'static [&'static str], DocumentError);

/// The bytes of pieces, one behind the other.
fn joined(alloc: Global, pieces: &[&str]) -> Result<Vec<u8>, AllocError> {
    let mut bytes = Vec::new(alloc);
    for piece in pieces {
        bytes.extend_from_slice(piece.as_bytes())?;
    }
    Ok(bytes)
}

/// What is read of a document.
fn outcome(alloc: Global, bytes: &[u8]) -> Result<Document, DocumentError> {
    match Base::new(alloc, BASE) {
        Ok(base) => read(alloc, bytes, &base),
        Err(_) => Err(DocumentError::OutOfMemory),
    }
}

/// Reads each document, and compares the cause.
fn check_causes<R: AllocGlobal + Abort>(rt: &R, rows: &[Row]) -> Result<(), Fail> {
    for (pieces, cause) in rows {
        let bytes = joined(rt.alloc(), pieces)?;
        let met = outcome(rt.alloc(), &bytes).err();
        let last = pieces.last().copied().unwrap_or("");
        assert_eq!(rt; met, Some(*cause), "of the document that ends in {last}");
    }
    Ok(())
}
