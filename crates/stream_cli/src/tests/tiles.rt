//! Listings, of one document and of several.

use super::{CUT, File, OTHER, PLAIN, ROOT, Row, TILE, TILES, TOP, check_all};
use std::test::Fail;

/// A tile of error 1 without children, from behind its error on.
const CONTENT: &str = r#"1,"content":{"uri":"a.glb"}}}"#;

const EXTERNAL: &str = r#"1,"content":{"uri":"e.json"}}}"#;

/// The address and the document of a folder below, in capitals.
const BELOW: File<'static> = File {
    address: "http://tiles/sub/e.JSON",
    pieces: &[TOP, TILE, CONTENT],
};

const ROOT_BELOW: File<'static> = File {
    address: ROOT,
    pieces: &[TOP, TILE, r#"1,"content":{"uri":"sub/e.JSON"}}}"#],
};

const NESTED: [File; 2] = [ROOT_BELOW, BELOW];

const NOT_THERE: [File; 1] = [ROOT_BELOW];

const CONTENT_BELOW: [File; 1] = [File {
    address: "http://tiles/sub/a.glb",
    pieces: &["abc"],
}];

/// A document that isn't read below the root, and two that name each other.
const REFUSED: [File; 2] = [
    File {
        address: ROOT,
        pieces: &[TOP, TILE, EXTERNAL],
    },
    File {
        address: OTHER,
        pieces: &["{"],
    },
];

/// A document that is its own external content.
const ITSELF: [File; 1] = [File {
    address: ROOT,
    pieces: &[TOP, TILE, r#"1,"content":{"uri":"t.json"}}}"#],
}];

const EACH_OTHER: [File; 2] = [
    File {
        address: ROOT,
        pieces: &[TOP, TILE, EXTERNAL],
    },
    File {
        address: OTHER,
        pieces: &[TOP, TILE, r#"1,"content":{"uri":"t.json"}}}"#],
    },
];

/// A box, moved by a transform: twice as large, turned about z by a quarter, and ten metres up.
const MOVED: [File; 1] = [File {
    address: ROOT,
    pieces: &[
        TOP,
        r#"{"boundingVolume":{"box":[1,2,3,4,0,0,0,5,0,0,0,6]},"geometricError":1,"refine":"ADD","#,
        r#""transform":[0,2,0,0,-2,0,0,0,0,0,2,0,0,0,10,1],"#,
        r#""contents":[{"uri":"a b.glb"},{"uri":"/b.glb"}]}}"#,
    ],
}];

/// The root's volume is the box beside a region.
const BOX_AND_REGION: [File; 1] = [File {
    address: ROOT,
    pieces: &[
        TOP,
        r#"{"boundingVolume":{"region":[0,0,0,0,0,0],"box":[0,0,0,1,0,0,0,1,0,0,0,1]},"#,
        r#""geometricError":1e400}}"#,
    ],
}];

static ROWS: [Row; 6] = [
    Row {
        name: "a document below",
        words: &TILES,
        files: &NESTED,
        text: "tile r REPLACE 1000000 sphere 0,0,0 5000\n\
            tile r/0 REPLACE 1000000 sphere 0,0,0 5000\n\
            content r/0 http://tiles/sub/a.glb\n",
        ..PLAIN
    },
    Row {
        name: "a document that isn't there",
        words: &TILES,
        files: &NOT_THERE,
        text: "tile r REPLACE 1000000 sphere 0,0,0 5000\n",
        ..PLAIN
    },
    Row {
        name: "a document that isn't read",
        words: &TILES,
        files: &REFUSED,
        text: "tile r REPLACE 1000000 sphere 0,0,0 5000\n",
        ..PLAIN
    },
    Row {
        name: "a moved box",
        words: &TILES,
        files: &MOVED,
        text: "tile r ADD 2000000 box -4000,2000,16000 0,8000,0 -10000,0,0 0,0,12000\n\
            content r http://tiles/a%20b.glb\n\
            content r http://tiles/b.glb\n",
        ..PLAIN
    },
    Row {
        name: "a box beside a region",
        words: &TILES,
        files: &BOX_AND_REGION,
        text: "tile r REPLACE 1125899906842624 box 0,0,0 1000,0,0 0,1000,0 0,0,1000\n",
        ..PLAIN
    },
    Row {
        name: "a cut through a document below",
        words: &CUT,
        files: &NESTED,
        contents: &CONTENT_BELOW,
        text: "cut 1\nshow r/0 http://tiles/sub/a.glb 3 \
            ba7816bf8f01cfea414140de5dae2223b00361a396177a9cb410ff61f20015ad\n",
        ..PLAIN
    },
];

#[test]
fn listings(rt: HostRuntime) -> Result<(), Fail> {
    check_all(&rt, &ROWS)
}

/// Seventeen tiles, each below the one before.
const SEVENTEEN: &str = "tile r REPLACE 1000000 sphere 0,0,0 5000\n\
    tile r/0 REPLACE 1000000 sphere 0,0,0 5000\n\
    tile r/0/0 REPLACE 1000000 sphere 0,0,0 5000\n\
    tile r/0/0/0 REPLACE 1000000 sphere 0,0,0 5000\n\
    tile r/0/0/0/0 REPLACE 1000000 sphere 0,0,0 5000\n\
    tile r/0/0/0/0/0 REPLACE 1000000 sphere 0,0,0 5000\n\
    tile r/0/0/0/0/0/0 REPLACE 1000000 sphere 0,0,0 5000\n\
    tile r/0/0/0/0/0/0/0 REPLACE 1000000 sphere 0,0,0 5000\n\
    tile r/0/0/0/0/0/0/0/0 REPLACE 1000000 sphere 0,0,0 5000\n\
    tile r/0/0/0/0/0/0/0/0/0 REPLACE 1000000 sphere 0,0,0 5000\n\
    tile r/0/0/0/0/0/0/0/0/0/0 REPLACE 1000000 sphere 0,0,0 5000\n\
    tile r/0/0/0/0/0/0/0/0/0/0/0 REPLACE 1000000 sphere 0,0,0 5000\n\
    tile r/0/0/0/0/0/0/0/0/0/0/0/0 REPLACE 1000000 sphere 0,0,0 5000\n\
    tile r/0/0/0/0/0/0/0/0/0/0/0/0/0 REPLACE 1000000 sphere 0,0,0 5000\n\
    tile r/0/0/0/0/0/0/0/0/0/0/0/0/0/0 REPLACE 1000000 sphere 0,0,0 5000\n\
    tile r/0/0/0/0/0/0/0/0/0/0/0/0/0/0/0 REPLACE 1000000 sphere 0,0,0 5000\n\
    tile r/0/0/0/0/0/0/0/0/0/0/0/0/0/0/0/0 REPLACE 1000000 sphere 0,0,0 5000\n";

static DEEP: [Row; 2] = [
    Row {
        name: "a document below itself",
        words: &TILES,
        files: &ITSELF,
        text: SEVENTEEN,
        ..PLAIN
    },
    Row {
        name: "two that name each other",
        words: &TILES,
        files: &EACH_OTHER,
        text: SEVENTEEN,
        ..PLAIN
    },
];

#[test]
fn tilesets_nest_sixteen_deep(rt: HostRuntime) -> Result<(), Fail> {
    check_all(&rt, &DEEP)
}
