//! Runs over documents in memory. What is expected of addresses is what another implementation of
//! the URL Standard answers; texts and numbers are worked out by hand.

mod contents;
mod cut;
mod edges;
mod implicit;
mod loading;
mod meta;
mod tiles;
mod words;

use crate::run::run_plain;
use bytes::Bytes;
use source_port::{FileList, MemorySink, MemorySource, NamedFile, NumberList, Source, Text};
use std::alloc::{AllocError, Global};
use std::process::Abort;
use std::test::Fail;
use std::thread::Threads;

/// A view from ten metres above the origin, on a screen of 1,000 pixels.
const VIEW: &str = "@0,0,10000:1000:1/2:256";

/// The words of a cut with that view, and of a listing.
const CUT: [&str; 3] = ["cut", "t.json", VIEW];

const TILES: [&str; 2] = ["tiles", "t.json"];

/// The addresses of the root document and of another.
const ROOT: &str = "http://tiles/t.json";

const OTHER: &str = "http://tiles/e.json";

/// A document up to its root tile.
const TOP: &str = r#"{"asset":{"version":"1.1"},"geometricError":10,"root":"#;

/// A tile in a sphere of five metres, up to its error.
const TILE: &str = r#"{"boundingVolume":{"sphere":[0,0,0,5]},"geometricError":"#;

/// A file in pieces.
#[derive(Clone, Copy)]
struct File<'a> {
    address: &'a str,
    pieces: &'a [&'a str],
}

/// A run over files, and how it is to end.
#[derive(Clone, Copy)]
struct Row<'a> {
    name: &'a str,
    words: &'a [&'a str],
    files: &'a [File<'a>],
    contents: &'a [File<'a>],
    /// The numbers of the fetches and of the puts that fail.
    failing_fetches: &'a [u64],
    failing_puts: &'a [u64],
    status: u8,
    fault: &'a str,
    text: &'a str,
}

/// A run that prints nothing, and in which nothing fails.
const PLAIN: Row<'static> = Row {
    name: "",
    words: &TILES,
    files: &[],
    contents: &[],
    failing_fetches: &[],
    failing_puts: &[],
    status: 0,
    fault: "",
    text: "",
};

/// Contents of three bytes, of five and of one.
const THREE_BYTES: File<'static> = File {
    address: "http://tiles/a.glb",
    pieces: &["abc"],
};

const FIVE_BYTES: File<'static> = File {
    address: "http://tiles/b.glb",
    pieces: &["hello"],
};

const ONE_BYTE: File<'static> = File {
    address: "http://tiles/c.glb",
    pieces: &["a"],
};

const CONTENTS: [File<'static>; 3] = [THREE_BYTES, FIVE_BYTES, ONE_BYTE];

/// A run over these contents.
const LOADED: Row<'static> = Row {
    contents: &CONTENTS,
    ..PLAIN
};

fn named_file(alloc: Global, file: &File) -> Result<NamedFile, AllocError> {
    let mut bytes = Vec::new(alloc);
    for piece in file.pieces {
        bytes.extend_from_slice(piece.as_bytes())?;
    }
    Ok(NamedFile {
        address: Text::new(alloc, file.address)?,
        bytes: Bytes::from_vec(bytes)?,
    })
}

/// The documents and the contents.
fn files(alloc: Global, given: &[File], contents: &[File]) -> Result<FileList, AllocError> {
    let mut files = FileList::new(alloc);
    for it in given {
        files.push(named_file(alloc, it)?)?;
    }
    for it in contents {
        files.push(named_file(alloc, it)?)?;
    }
    Ok(files)
}

/// Runs a row over a source, and compares how it ends.
fn check_over<R: AllocGlobal + Abort + Threads + Sync, S: Source>(
    rt: &R,
    row: &Row,
    source: &mut S,
) -> Result<(), Fail> {
    let name = row.name;
    let failing = NumberList::from_slice(rt.alloc(), row.failing_puts)?;
    let mut out = MemorySink::new(rt.alloc(), failing);
    let ended = run_plain(rt, rt.alloc(), row.words, source, &mut out);
    let line = ended.cause.line(rt.alloc())?;
    assert_eq!(rt; ended.status, row.status, "the status of: {name}");
    assert_eq!(rt; line.as_str(), row.fault, "the line of: {name}");
    assert_eq!(rt; out.bytes(), row.text.as_bytes(), "the text of: {name}");
    Ok(())
}

/// Runs a row over its files in memory.
fn check<R: AllocGlobal + Abort + Threads + Sync>(rt: &R, row: &Row) -> Result<(), Fail> {
    let failing = NumberList::from_slice(rt.alloc(), row.failing_fetches)?;
    let mut source = MemorySource::new(files(rt.alloc(), row.files, row.contents)?, failing);
    check_over(rt, row, &mut source)
}

fn check_all<R: AllocGlobal + Abort + Threads + Sync>(rt: &R, rows: &[Row]) -> Result<(), Fail> {
    for row in rows {
        check(rt, row)?;
    }
    Ok(())
}
