//! The edges of a run: its printed lines, its words and its end.

use super::{CONTENTS, CUT, File, ROOT, TILE, TOP, files};
use crate::cause::{Cause, NotHere};
use crate::contents::ContentMap;
use crate::ended::Ended;
use crate::program::{finish, read_arguments, run_arguments};
use crate::report::print_cut;
use content_digest::ContentFacts;
use cut_core::{CutLine, CutList};
use source_port::{MemorySink, NumberList, PutError, SteadySource, Text};
use std::io;
use std::process::ExitCode;
use std::test::Fail;
use tileset_schema::{DocumentError, Field};

#[test]
fn each_line_is_one_put(rt: HostRuntime) -> Result<(), Fail> {
    let alloc = rt.alloc();
    let mut lines = CutList::new(alloc);
    for tile in ["r/0", "r/1"] {
        lines.push(CutLine {
            tile: Text::new(alloc, tile)?,
            address: Text::new(alloc, "b.glb")?,
        })?;
    }
    let mut contents = ContentMap::new(alloc);
    let facts = ContentFacts::of(b"hello");
    contents.add(Text::new(alloc, "b.glb")?, Some(facts))?;
    let texts = [
        "",
        "cut 2\n",
        "cut 2\n\
        show r/0 b.glb 5 2cf24dba5fb0a30e26e83b2ac5b9e29e1b161e5c1fa7425e73043362938b9824\n",
    ];
    for (done, text) in texts.iter().enumerate() {
        let failing = NumberList::from_slice(alloc, &[done as u64 + 1])?;
        let mut out = MemorySink::new(alloc, failing);
        assert_eq!(rt;
            print_cut(alloc, lines.as_slice(), &contents, &mut out),
            Err(PutError::SinkFailed)
        );
        assert_eq!(rt; out.bytes(), text.as_bytes(), "behind {done} puts");
    }
    Ok(())
}

/// One tile.
const ONE: [File; 1] = [File {
    address: ROOT,
    pieces: &[TOP, TILE, r#"1,"content":{"uri":"a.glb"}}}"#],
}];

#[test]
fn the_words_of_the_program(rt: HostRuntime) -> Result<(), Fail> {
    let alloc = rt.alloc();
    let mut given = Vec::new(alloc);
    given.push(String::from_str(alloc, "stream_cli")?)?;
    for word in CUT {
        given.push(String::from_str(alloc, word)?)?;
    }
    let given = read_arguments(alloc, Ok(given.into_iter()));
    let mut source = SteadySource::new(files(alloc, &ONE, &CONTENTS)?);
    let mut out = MemorySink::new(alloc, NumberList::new(alloc));
    let given = given.unwrap_or(Vec::new(alloc));
    let ended = run_arguments(&rt, alloc, &given, &mut source, &mut out);
    assert_eq!(rt; ended.cause, Cause::Done);
    let text = "cut 1\nshow r http://tiles/a.glb 3 \
        ba7816bf8f01cfea414140de5dae2223b00361a396177a9cb410ff61f20015ad\n";
    assert_eq!(rt; out.bytes(), text.as_bytes());
    for (kind, cause) in [
        (io::ErrorKind::InvalidData, Cause::Words),
        (io::ErrorKind::OutOfMemory, Cause::Memory),
    ] {
        let unread = read_arguments(alloc, Err(io::Error::from(kind)));
        assert_eq!(rt; unread.err(), Some(cause));
    }
    Ok(())
}

/// Causes, with their statuses and lines.
static ENDS: [(Cause, u8, &str); 11] = [
    (Cause::Done, 0, ""),
    (Cause::Words, 1, "fault 1 words\n"),
    (
        Cause::Document {
            error: DocumentError::NotJson,
        },
        2,
        "fault 2 document NotJson - -\n",
    ),
    (
        Cause::Document {
            error: DocumentError::OutOfRange {
                field: Field::GeometricError,
                tile: 12,
            },
        },
        2,
        "fault 2 document OutOfRange GeometricError 12\n",
    ),
    (Cause::Source { count: 3 }, 3, "fault 3 source 3\n"),
    (Cause::Out { count: 1 }, 4, "fault 4 out 1\n"),
    (Cause::Memory, 7, "fault 7 memory\n"),
    (
        Cause::RootAbsent {
            why: NotHere::Missing,
        },
        8,
        "fault 8 root Missing\n",
    ),
    (
        Cause::RootAbsent {
            why: NotHere::TooLong,
        },
        8,
        "fault 8 root TooLong\n",
    ),
    (Cause::Tiles, 9, "fault 9 tiles\n"),
    (Cause::Listing, 9, "fault 9 listing\n"),
];

#[test]
fn how_the_program_ends(rt: HostRuntime) -> Result<(), Fail> {
    let alloc = rt.alloc();
    for (cause, status, line) in ENDS {
        let mut errors = Vec::new(alloc);
        let exit = finish(alloc, &Ended::by(cause), &mut errors);
        assert!(rt; exit.code == ExitCode::from(status));
        assert!(rt; exit.told);
        assert_eq!(rt; errors.as_slice(), line.as_bytes());
    }
    Ok(())
}

#[test]
fn the_arguments_of_a_test_are_no_command(rt: HostRuntime) -> Result<(), Fail> {
    let mut errors = Vec::new(rt.alloc());
    assert!(rt; crate::run_program(&rt, &mut errors) == ExitCode::from(1));
    assert_eq!(rt; errors.as_slice(), b"fault 1 words\n".as_slice());
    Ok(())
}
