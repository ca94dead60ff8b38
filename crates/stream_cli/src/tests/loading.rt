//! Documents that aren't loaded, and trees that are too large.

use super::{CUT, File, OTHER, PLAIN, ROOT, Row, TILE, TILES, TOP, check, check_all, check_over};
use bytes::Bytes;
use source_port::{FileList, MemorySource, NumberList, SteadySource, Text};
use std::test::Fail;

const EXTERNAL: [File; 2] = [
    File {
        address: ROOT,
        pieces: &[TOP, TILE, r#"1,"content":{"uri":"e.json"}}}"#],
    },
    File {
        address: OTHER,
        pieces: &[TOP, TILE, "1}}"],
    },
];

const CUT_OFF: [File; 1] = [File {
    address: ROOT,
    pieces: &[TOP, TILE, "1}"],
}];

const BOX_OF_FOUR: [File; 1] = [File {
    address: ROOT,
    pieces: &[
        TOP,
        r#"{"boundingVolume":{"box":[0,0,0,5]},"geometricError":1}}"#,
    ],
}];

const REGION: [File; 1] = [File {
    address: ROOT,
    pieces: &[
        TOP,
        r#"{"boundingVolume":{"region":[0,0,0,0,0,0]},"geometricError":1}}"#,
    ],
}];

const IMPLICIT: [File; 1] = [File {
    address: ROOT,
    pieces: &[
        TOP,
        TILE,
        r#"2,"children":["#,
        TILE,
        r#"1,"implicitTiling":{}}]}}"#,
    ],
}];

const OLD: [File; 1] = [File {
    address: ROOT,
    pieces: &[r#"{"asset":{"version":"0.9"},"geometricError":1}"#],
}];

const NO_URI: [File; 1] = [File {
    address: ROOT,
    pieces: &[TOP, TILE, r#"1,"content":{}}}"#],
}];

static ROWS: [Row; 11] = [
    Row {
        name: "no document",
        words: &CUT,
        status: 8,
        fault: "fault 8 root Missing\n",
        ..PLAIN
    },
    Row {
        name: "a root on another host",
        words: &["tiles", "http://example.org/t.json"],
        files: &EXTERNAL,
        status: 8,
        fault: "fault 8 root Missing\n",
        ..PLAIN
    },
    Row {
        name: "a first fetch that fails",
        words: &TILES,
        files: &EXTERNAL,
        failing_fetches: &[1],
        status: 3,
        fault: "fault 3 source 1\n",
        ..PLAIN
    },
    Row {
        name: "a second fetch that fails",
        words: &TILES,
        files: &EXTERNAL,
        failing_fetches: &[2],
        status: 3,
        fault: "fault 3 source 1\n",
        ..PLAIN
    },
    Row {
        name: "a byte too few",
        files: &CUT_OFF,
        status: 2,
        fault: "fault 2 document NotJson - -\n",
        ..PLAIN
    },
    Row {
        name: "a box of four numbers",
        files: &BOX_OF_FOUR,
        status: 2,
        fault: "fault 2 document Shape BoundingVolume 0\n",
        ..PLAIN
    },
    Row {
        name: "a region alone",
        files: &REGION,
        status: 2,
        fault: "fault 2 document RegionVolume - 0\n",
        ..PLAIN
    },
    Row {
        name: "implicit tiling without a scheme",
        files: &IMPLICIT,
        status: 2,
        fault: "fault 2 document MissingField Scheme 1\n",
        ..PLAIN
    },
    Row {
        name: "another version",
        files: &OLD,
        status: 2,
        fault: "fault 2 document Version - -\n",
        ..PLAIN
    },
    Row {
        name: "a content without a uri",
        files: &NO_URI,
        status: 2,
        fault: "fault 2 document MissingField Uri 0\n",
        ..PLAIN
    },
    // A third fetch would fail: each document is fetched once.
    Row {
        name: "no fetch too many",
        files: &EXTERNAL,
        failing_fetches: &[3],
        text: "tile r REPLACE 1000000 sphere 0,0,0 5000\n\
            tile r/0 REPLACE 1000000 sphere 0,0,0 5000\n",
        ..PLAIN
    },
];

#[test]
fn documents_that_are_not_loaded(rt: HostRuntime) -> Result<(), Fail> {
    check_all(&rt, &ROWS)
}

#[test]
fn a_source_that_never_fails(rt: HostRuntime) -> Result<(), Fail> {
    check_over(
        &rt,
        &ROWS[0],
        &mut SteadySource::new(FileList::new(rt.alloc())),
    )
}

#[test]
fn a_long_document(rt: HostRuntime) -> Result<(), Fail> {
    let alloc = rt.alloc();
    let bytes = vec![in alloc; b' '; 16_777_217]?;
    let mut source = MemorySource::new(FileList::new(alloc), NumberList::new(alloc));
    source.add(Text::new(alloc, ROOT)?, Bytes::from_vec(bytes)?)?;
    let row = Row {
        name: "a long document",
        words: &TILES,
        status: 8,
        fault: "fault 8 root TooLong\n",
        ..PLAIN
    };
    check_over(&rt, &row, &mut source)
}

/// A document that holds itself twice has 131,071 nodes, and one that holds itself three times many
/// more than are listed.
const TWICE: [File; 1] = [File {
    address: ROOT,
    pieces: &[
        TOP,
        TILE,
        r#"1,"contents":[{"uri":"t.json"},{"uri":"t.json"}]}}"#,
    ],
}];

const THRICE: [File; 1] = [File {
    address: ROOT,
    pieces: &[
        TOP,
        TILE,
        r#"1,"contents":[{"uri":"t.json"},{"uri":"t.json"},{"uri":"t.json"}]}}"#,
    ],
}];

#[test]
fn too_many_nodes_to_visit(rt: HostRuntime) -> Result<(), Fail> {
    check(
        &rt,
        &Row {
            name: "131,071 nodes to visit",
            words: &CUT,
            files: &TWICE,
            status: 9,
            fault: "fault 9 tiles\n",
            ..PLAIN
        },
    )
}

#[test]
fn too_many_nodes_to_list(rt: HostRuntime) -> Result<(), Fail> {
    check(
        &rt,
        &Row {
            name: "43,046,721 nodes and more to list",
            words: &TILES,
            files: &THRICE,
            status: 9,
            fault: "fault 9 listing\n",
            ..PLAIN
        },
    )
}
