//! Implicit tilings: listings and cuts by the bits of subtrees.

use super::{CUT, File, LOADED, OTHER, PLAIN, ROOT, Row, TILE, TILES, TOP, check_all};
use std::test::Fail;

/// A root of eight metres each way from its centre, up to its subdivision.
const BOX: &str = r#"{"boundingVolume":{"box":[0,0,0,8,0,0,0,8,0,0,0,8]},"geometricError":4,"#;

/// Two levels in one subtree, and in subtrees of one level each.
const LEVELS: &str = r#""implicitTiling":{"subdivisionScheme":"QUADTREE","subtreeLevels":2,
    "availableLevels":2,"subtrees":{"uri":"s/{level}.{x}.{y}.subtree"}}}}"#;

const EACH_LEVEL: &str = r#""implicitTiling":{"subdivisionScheme":"QUADTREE","subtreeLevels":1,
    "availableLevels":2,"subtrees":{"uri":"s/{level}.{x}.{y}.subtree"}}}}"#;

/// One subtree for all.
const ONE_FILE: &str = r#""implicitTiling":{"subdivisionScheme":"QUADTREE","subtreeLevels":1,
    "availableLevels":2,"subtrees":{"uri":"s/0.0.0.subtree"}}}}"#;

const IMPLICIT: File<'static> = File {
    address: ROOT,
    pieces: &[TOP, BOX, LEVELS],
};

const SUBTREE: &str = "http://tiles/s/0.0.0.subtree";

/// Headers: 256 bytes of JSON and one byte or two of bits; and 77 and 116 bytes of JSON alone.
const ONE_BYTE: &str = "subt\x01\0\0\0\0\x01\0\0\0\0\0\0\x01\0\0\0\0\0\0\0";

const TWO_BYTES: &str = "subt\x01\0\0\0\0\x01\0\0\0\0\0\0\x02\0\0\0\0\0\0\0";

const NO_BYTE: &str = "subt\x01\0\0\0M\0\0\0\0\0\0\0\0\0\0\0\0\0\0\0";

const NO_BYTE_OF_CONTENT: &str = "subt\x01\0\0\0t\0\0\0\0\0\0\0\0\0\0\0\0\0\0\0";

/// 21 spaces.
const SPACES: &str = "                     ";

/// Tiles by the bits of one byte, no content, and no child subtree: 151 bytes.
const TILES_BY_BITS: &str = concat!(
    r#"{"buffers":[{"byteLength":1}],"bufferViews":[{"buffer":0,"byteLength":1}],"#,
    r#""tileAvailability":{"bitstream":0},"childSubtreeAvailability":{"constant":0}}"#
);

/// The same where each tile has a content, and by the bits of two bytes: 193 bytes.
const CONTENTS_BY_BITS: &str = concat!(
    r#"{"buffers": [{"byteLength":1}], "bufferViews": [{"buffer":0,"byteLength":1}],"#,
    r#""tileAvailability":{"bitstream":0},"contentAvailability":[{"constant":1}],"#,
    r#""childSubtreeAvailability":{"constant":0}}"#
);

const CITY_BITS: &str = concat!(
    r#"{"buffers": [{"byteLength":2}], "bufferViews": [{"buffer":0,"byteLength":2}],"#,
    r#""tileAvailability":{"bitstream":0},"contentAvailability":[{"constant":1}],"#,
    r#""childSubtreeAvailability":{"constant":0}}"#
);

/// All tiles and all child subtrees, and none: 77 bytes each.
const ALL: &str =
    r#"{"tileAvailability":{"constant":1},"childSubtreeAvailability":{"constant":1}}"#;

const NONE: &str =
    r#"{"tileAvailability":{"constant":0},"childSubtreeAvailability":{"constant":0}}"#;

/// All tiles, with a content each: 116 bytes.
const ALL_WITH_CONTENT: &str = concat!(
    r#"{"tileAvailability":{"constant":1},"contentAvailability":[{"constant":1}],"#,
    r#""childSubtreeAvailability":{"constant":0}}"#
);

/// Bits 0, 1 and 3 are set.
const THREE_TILES: [File; 2] = [
    IMPLICIT,
    File {
        address: SUBTREE,
        pieces: &[
            ONE_BYTE,
            TILES_BY_BITS,
            SPACES,
            SPACES,
            SPACES,
            SPACES,
            SPACES,
            "\x0B",
        ],
    },
];

/// Bit 0 isn't set.
const NO_ROOT_TILE: [File; 2] = [
    IMPLICIT,
    File {
        address: SUBTREE,
        pieces: &[
            ONE_BYTE,
            TILES_BY_BITS,
            SPACES,
            SPACES,
            SPACES,
            SPACES,
            SPACES,
            "\x0A",
        ],
    },
];

const NO_SUBTREE: [File; 1] = [IMPLICIT];

const REFUSED: [File; 2] = [
    IMPLICIT,
    File {
        address: SUBTREE,
        pieces: &["subt\x02"],
    },
];

/// A child subtree without a tile, one with a tile, and two that aren't there.
const CHILD_SUBTREES: [File; 4] = [
    File {
        address: ROOT,
        pieces: &[TOP, BOX, EACH_LEVEL],
    },
    File {
        address: SUBTREE,
        pieces: &[NO_BYTE, ALL],
    },
    File {
        address: "http://tiles/s/1.0.0.subtree",
        pieces: &[NO_BYTE, NONE],
    },
    File {
        address: "http://tiles/s/1.1.0.subtree",
        pieces: &[NO_BYTE, ALL],
    },
];

const SAME_SUBTREE: [File; 2] = [
    File {
        address: ROOT,
        pieces: &[TOP, BOX, ONE_FILE],
    },
    File {
        address: SUBTREE,
        pieces: &[NO_BYTE, ALL],
    },
];

/// The content of the tile is an external tileset.
const EXTERNAL: [File; 3] = [
    File {
        address: ROOT,
        pieces: &[
            TOP,
            BOX,
            r#""content":{"uri":"e.json"},"#,
            r#""implicitTiling":{"subdivisionScheme":"OCTREE","subtreeLevels":1,"#,
            r#""availableLevels":1,"subtrees":{"uri":"s/{level}.{x}.{y}.subtree"}}}}"#,
        ],
    },
    File {
        address: SUBTREE,
        pieces: &[NO_BYTE_OF_CONTENT, ALL_WITH_CONTENT],
    },
    File {
        address: OTHER,
        pieces: &[TOP, TILE, "1}}"],
    },
];

static LISTINGS: [Row; 8] = [
    Row {
        name: "three tiles",
        words: &TILES,
        files: &THREE_TILES,
        text: "tile r REPLACE 4000000 box 0,0,0 8000,0,0 0,8000,0 0,0,8000\n\
            tile r!1.0.0 REPLACE 2000000 box -4000,-4000,0 4000,0,0 0,4000,0 0,0,8000\n\
            tile r!1.0.1 REPLACE 2000000 box -4000,4000,0 4000,0,0 0,4000,0 0,0,8000\n",
        ..PLAIN
    },
    Row {
        name: "no subtree",
        words: &TILES,
        files: &NO_SUBTREE,
        ..PLAIN
    },
    Row {
        name: "no tile at the root",
        words: &TILES,
        files: &NO_ROOT_TILE,
        ..PLAIN
    },
    Row {
        name: "a subtree of another version",
        words: &TILES,
        files: &REFUSED,
        ..PLAIN
    },
    Row {
        name: "a subtree that can't be fetched",
        words: &TILES,
        files: &THREE_TILES,
        failing_fetches: &[2],
        status: 3,
        fault: "fault 3 source 1\n",
        ..PLAIN
    },
    Row {
        name: "child subtrees",
        words: &TILES,
        files: &CHILD_SUBTREES,
        text: "tile r REPLACE 4000000 box 0,0,0 8000,0,0 0,8000,0 0,0,8000\n\
            tile r!1.1.0 REPLACE 2000000 box 4000,-4000,0 4000,0,0 0,4000,0 0,0,8000\n",
        ..PLAIN
    },
    // A third fetch would fail: the subtree is fetched once for all.
    Row {
        name: "one subtree for all",
        words: &TILES,
        files: &SAME_SUBTREE,
        failing_fetches: &[3],
        text: "tile r REPLACE 4000000 box 0,0,0 8000,0,0 0,8000,0 0,0,8000\n\
            tile r!1.0.0 REPLACE 2000000 box -4000,-4000,0 4000,0,0 0,4000,0 0,0,8000\n\
            tile r!1.1.0 REPLACE 2000000 box 4000,-4000,0 4000,0,0 0,4000,0 0,0,8000\n\
            tile r!1.0.1 REPLACE 2000000 box -4000,4000,0 4000,0,0 0,4000,0 0,0,8000\n\
            tile r!1.1.1 REPLACE 2000000 box 4000,4000,0 4000,0,0 0,4000,0 0,0,8000\n",
        ..PLAIN
    },
    Row {
        name: "an external tileset",
        words: &TILES,
        files: &EXTERNAL,
        text: "tile r REPLACE 4000000 box 0,0,0 8000,0,0 0,8000,0 0,0,8000\n\
            tile r/0 REPLACE 1000000 sphere 0,0,0 5000\n",
        ..PLAIN
    },
];

#[test]
fn implicit_tiles(rt: HostRuntime) -> Result<(), Fail> {
    check_all(&rt, &LISTINGS)
}

/// The tiles of a quadtree with contents.
const WITH_CONTENTS: [File; 3] = [
    File {
        address: ROOT,
        pieces: &[
            TOP,
            BOX,
            r#""content":{"uri":"c/{level}.{x}.{y}.glb"},"#,
            LEVELS,
        ],
    },
    File {
        address: SUBTREE,
        pieces: &[ONE_BYTE, CONTENTS_BY_BITS, SPACES, SPACES, SPACES, "\x0B"],
    },
    File {
        address: "http://tiles/c/1.0.0.glb",
        pieces: &["abc"],
    },
];

/// A city: its tiles are those of an octree, under a transform to the ground.
const CITY: [File; 2] = [
    File {
        address: "http://tiles/city/tileset.json",
        pieces: &[
            r#"{"asset":{"version":"1.1"},"geometricError":512,"root":{"boundingVolume":"#,
            r#"{"box":[0,0,0,512,0,0,0,512,0,0,0,64]},"geometricError":512,"#,
            r#""transform":[0.8,0.6,0,0,-0.6,0.8,0,0,0,0,1,0,1215000,-4736000,4081000,1],"#,
            r#""children":[{"boundingVolume":{"box":[0,0,0,512,0,0,0,512,0,0,0,64]},"#,
            r#""geometricError":128,"content":{"uri":"c/{level}/{x}/{y}/{z}.glb"},"#,
            r#""implicitTiling":{"subdivisionScheme":"OCTREE","subtreeLevels":2,"#,
            r#""availableLevels":2,"subtrees":{"uri":"s/{level}/{x}/{y}/{z}.subtree"}}}]}}"#,
        ],
    },
    File {
        address: "http://tiles/city/s/0/0/0/0.subtree",
        pieces: &[TWO_BYTES, CITY_BITS, SPACES, SPACES, SPACES, "\x07\0"],
    },
];

const CITY_CONTENTS: [File; 1] = [File {
    address: "http://tiles/city/c/1/1/0/0.glb",
    pieces: &["abc"],
}];

/// A view from a kilometre above the ground, with the planes of its frustum.
const CUT_OF_CITY: [&str; 3] = [
    "cut",
    "city/tileset.json",
    "@1215000000,-4736000000,4082000000:1080:1/2:256\
        :1,0,0,-1215400000:-1,0,0,1216000000:0,1,0,4737000000:0,-1,0,-4735000000\
        :0,0,-1,4082000000",
];

static CUTS: [Row; 3] = [
    // One of the two contents isn't there.
    Row {
        name: "a cut of implicit tiles",
        words: &CUT,
        files: &WITH_CONTENTS,
        text: "cut 1\nshow r!1.0.0 http://tiles/c/1.0.0.glb 3 \
            ba7816bf8f01cfea414140de5dae2223b00361a396177a9cb410ff61f20015ad\n",
        ..LOADED
    },
    Row {
        name: "a cut of nothing",
        words: &CUT,
        files: &NO_ROOT_TILE,
        text: "cut 0\n",
        ..LOADED
    },
    Row {
        name: "a city",
        words: &CUT_OF_CITY,
        files: &CITY,
        contents: &CITY_CONTENTS,
        text: "cut 1\nshow r/0!1.1.0.0 http://tiles/city/c/1/1/0/0.glb 3 \
            ba7816bf8f01cfea414140de5dae2223b00361a396177a9cb410ff61f20015ad\n",
        ..PLAIN
    },
];

#[test]
fn cuts_of_implicit_tiles(rt: HostRuntime) -> Result<(), Fail> {
    check_all(&rt, &CUTS)
}
