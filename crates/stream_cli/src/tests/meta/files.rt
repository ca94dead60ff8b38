//! Documents with schemas, and subtrees with property tables.

use crate::tests::{File, OTHER, ROOT, TILE, TOP};

/// A document up to its schema.
const HEAD: &str = r#"{"asset":{"version":"1.1"},"geometricError":10,"schema":"#;

/// An implicit root, behind the schema: two levels in one subtree, three in one, and two in
/// subtrees of one level each.
const TWO_LEVELS: &str = concat!(
    r#","root":{"boundingVolume":{"box":[0,0,0,8,0,0,0,8,0,0,0,8]},"geometricError":4,"#,
    r#""implicitTiling":{"subdivisionScheme":"QUADTREE","subtreeLevels":2,"#,
    r#""availableLevels":2,"subtrees":{"uri":"s.subtree"}}}}"#
);

const THREE_LEVELS: &str = concat!(
    r#","root":{"boundingVolume":{"box":[0,0,0,8,0,0,0,8,0,0,0,8]},"geometricError":4,"#,
    r#""implicitTiling":{"subdivisionScheme":"QUADTREE","subtreeLevels":3,"#,
    r#""availableLevels":3,"subtrees":{"uri":"s.subtree"}}}}"#
);

const EACH_LEVEL: &str = concat!(
    r#","root":{"boundingVolume":{"box":[0,0,0,8,0,0,0,8,0,0,0,8]},"geometricError":4,"#,
    r#""implicitTiling":{"subdivisionScheme":"QUADTREE","subtreeLevels":1,"#,
    r#""availableLevels":2,"subtrees":{"uri":"s{level}{x}{y}.subtree"}}}}"#
);

/// A class with one whole number.
const HEIGHT: &str = concat!(
    r#"{"classes":{"C":{"properties":{"h":{"type":"SCALAR","componentType":"UINT8"}}}}}"#
);

/// Schemas that are refused.
const UNKNOWN_ENUM: &str =
    r#"{"classes":{"C":{"properties":{"h":{"type":"ENUM","enumType":"E"}}}}}"#;

const OUT_OF_RANGE: &str = r#"{"enums":{"E":{"values":[{"name":"x","value":65536}]}}}"#;

/// A property of each kind.
const KINDS: &str = concat!(
    r#"{"enums":{"E":{"values":[{"name":"none","value":0},{"name":"tree","value":1}]}},"#,
    r#""classes":{"C":{"properties":{"b":{"type":"BOOLEAN"},"t":{"type":"STRING"},"#,
    r#""e":{"type":"ENUM","enumType":"E"},"f":{"type":"SCALAR","#,
    r#""componentType":"FLOAT32"}}}}}"#
);

/// The address of a subtree, and its header: 768 bytes of JSON and 80 bytes of bits and cells.
const SUBTREE: &str = "http://tiles/s.subtree";

const HEADER: &str = "subt\x01\0\0\0\0\x03\0\0\0\0\0\0\x50\0\0\0\0\0\0\0";

/// Views of the bits, of three numbers, of nine truth values, nine numbers of two bytes, ten
/// offsets and two bytes of text.
const VIEWS: &str = concat!(
    r#"{"buffers":[{"byteLength":80}],"bufferViews":[{"buffer":0,"byteLength":1},"#,
    r#"{"buffer":0,"byteOffset":8,"byteLength":3},{"buffer":0,"byteLength":2},{"buffer":0,"#,
    r#""byteOffset":8,"byteLength":18},{"buffer":0,"byteOffset":32,"byteLength":40},"#,
    r#"{"buffer":0,"byteOffset":72,"byteLength":2}],"#
);

/// Tiles by bits, all tiles, and all with all child subtrees.
const BY_BITS: &str = concat!(
    r#""tileAvailability":{"bitstream":0},"childSubtreeAvailability":{"constant":0}"#
);

const ALL: &str = concat!(
    r#""tileAvailability":{"constant":1},"childSubtreeAvailability":{"constant":0}"#
);

const ALL_BELOW: &str = concat!(
    r#""tileAvailability":{"constant":1},"childSubtreeAvailability":{"constant":1}"#
);

/// Tables of heights: of three rows, of two, of an unknown class, of more rows than the view has
/// bytes for, and one that is named by no tiles.
const THREE_ROWS: &str = concat!(
    r#","tileMetadata":0,"propertyTables":[{"class":"C","count":3,"#,
    r#""properties":{"h":{"values":1}}}]}"#
);

const TWO_ROWS: &str = concat!(
    r#","tileMetadata":0,"propertyTables":[{"class":"C","count":2,"#,
    r#""properties":{"h":{"values":1}}}]}"#
);

const UNKNOWN_CLASS: &str = concat!(
    r#","tileMetadata":0,"propertyTables":[{"class":"X","count":3,"#,
    r#""properties":{"h":{"values":1}}}]}"#
);

const MOST_ROWS: &str = concat!(
    r#","tileMetadata":0,"propertyTables":[{"class":"C","count":4294967295,"#,
    r#""properties":{"h":{"values":1}}}]}"#
);

const UNNAMED: &str = concat!(
    r#","propertyTables":[{"class":"C","count":3,"properties":{"h":{"values":1}}}]}"#
);

/// A table of nine rows of each kind.
const NINE_ROWS: &str = concat!(
    r#","tileMetadata":0,"propertyTables":[{"class":"C","count":9,"#,
    r#""properties":{"b":{"values":2},"t":{"values":5,"stringOffsets":4},"e":{"values":3},"#,
    r#""f":{"values":1}}}]}"#
);

/// Bits 0, 1 and 3, and 10, 20 and 30.
const HEIGHTS: &str = concat!(
    "\x0B\0\0\0\0\0\0\0\x0A\x14\x1E\0\0\0\0\0\0\0\0\0\0\0\0\0\0\0\0\0\0\0\0\0\0\0\0\0",
    "\0\0\0\0\0\0\0\0\0\0\0\0\0\0\0\0\0\0\0\0\0\0\0\0\0\0\0\0\0\0\0\0\0\0\0\0\0\0\0\0",
    "\0\0\0\0"
);

/// Truth values 0, 2 and 8, `tree` first, and the text `hi` second; offsets that fall, and offsets
/// that cut a character.
const CELLS: &str = concat!(
    "\x05\x01\0\0\0\0\0\0\x01\0\0\0\0\0\0\0\0\0\0\0\0\0\0\0\0\0\0\0\0\0\0\0\0\0\0\0\0",
    "\0\0\0\x02\0\0\0\x02\0\0\0\x02\0\0\0\x02\0\0\0\x02\0\0\0\x02\0\0\0\x02\0\0\0\x02",
    "\0\0\0hi\0\0\0\0\0\0"
);

const FALLING: &str = concat!(
    "\x05\x01\0\0\0\0\0\0\x01\0\0\0\0\0\0\0\0\0\0\0\0\0\0\0\0\0\0\0\0\0\0\0\0\0\0\0",
    "\x02\0\0\0\x01\0\0\0\x02\0\0\0\x02\0\0\0\x02\0\0\0\x02\0\0\0\x02\0\0\0\x02\0\0\0",
    "\x02\0\0\0hi\0\0\0\0\0\0"
);

const CUT_CHARACTER: &str = concat!(
    "\x05\x01\0\0\0\0\0\0\x01\0\0\0\0\0\0\0\0\0\0\0\0\0\0\0\0\0\0\0\0\0\0\0\0\0\0\0",
    "\x01\0\0\0\x02\0\0\0\x02\0\0\0\x02\0\0\0\x02\0\0\0\x02\0\0\0\x02\0\0\0\x02\0\0\0",
    "\x02\0\0\0ä\0\0\0\0\0\0"
);

/// 64 spaces.
const SPACES: &str = "                                                                ";

/// A document and its subtree.
pub(super) const HEIGHT_FILES: [File; 2] = [
    File {
        address: ROOT,
        pieces: &[HEAD, HEIGHT, TWO_LEVELS],
    },
    File {
        address: SUBTREE,
        pieces: &[
            HEADER, VIEWS, BY_BITS, THREE_ROWS, SPACES, SPACES, SPACES, SPACES, SPACES, HEIGHTS,
        ],
    },
];

pub(super) const TWO_ROW_FILES: [File; 2] = [
    File {
        address: ROOT,
        pieces: &[HEAD, HEIGHT, TWO_LEVELS],
    },
    File {
        address: SUBTREE,
        pieces: &[
            HEADER, VIEWS, BY_BITS, TWO_ROWS, SPACES, SPACES, SPACES, SPACES, SPACES, HEIGHTS,
        ],
    },
];

pub(super) const UNKNOWN_CLASS_FILES: [File; 2] = [
    File {
        address: ROOT,
        pieces: &[HEAD, HEIGHT, TWO_LEVELS],
    },
    File {
        address: SUBTREE,
        pieces: &[
            HEADER,
            VIEWS,
            BY_BITS,
            UNKNOWN_CLASS,
            SPACES,
            SPACES,
            SPACES,
            SPACES,
            SPACES,
            HEIGHTS,
        ],
    },
];

pub(super) const MOST_ROW_FILES: [File; 2] = [
    File {
        address: ROOT,
        pieces: &[HEAD, HEIGHT, TWO_LEVELS],
    },
    File {
        address: SUBTREE,
        pieces: &[
            HEADER,
            VIEWS,
            BY_BITS,
            MOST_ROWS,
            SPACES,
            SPACES,
            SPACES,
            SPACES,
            "                                                       ",
            HEIGHTS,
        ],
    },
];

pub(super) const UNNAMED_FILES: [File; 2] = [
    File {
        address: ROOT,
        pieces: &[HEAD, HEIGHT, TWO_LEVELS],
    },
    File {
        address: SUBTREE,
        pieces: &[
            HEADER,
            VIEWS,
            BY_BITS,
            UNNAMED,
            SPACES,
            SPACES,
            SPACES,
            SPACES,
            SPACES,
            "                 ",
            HEIGHTS,
        ],
    },
];

pub(super) const UNKNOWN_ENUM_FILES: [File; 2] = [
    File {
        address: ROOT,
        pieces: &[HEAD, UNKNOWN_ENUM, TWO_LEVELS],
    },
    File {
        address: SUBTREE,
        pieces: &[
            HEADER, VIEWS, BY_BITS, THREE_ROWS, SPACES, SPACES, SPACES, SPACES, SPACES, HEIGHTS,
        ],
    },
];

pub(super) const OUT_OF_RANGE_FILES: [File; 2] = [
    File {
        address: ROOT,
        pieces: &[HEAD, OUT_OF_RANGE, TWO_LEVELS],
    },
    File {
        address: SUBTREE,
        pieces: &[
            HEADER, VIEWS, BY_BITS, THREE_ROWS, SPACES, SPACES, SPACES, SPACES, SPACES, HEIGHTS,
        ],
    },
];

pub(super) const NO_OBJECT_FILES: [File; 2] = [
    File {
        address: ROOT,
        pieces: &[HEAD, "1", TWO_LEVELS],
    },
    File {
        address: SUBTREE,
        pieces: &[
            HEADER, VIEWS, BY_BITS, THREE_ROWS, SPACES, SPACES, SPACES, SPACES, SPACES, HEIGHTS,
        ],
    },
];

/// A document without a schema.
pub(super) const NO_SCHEMA_FILES: [File; 2] = [
    File {
        address: ROOT,
        pieces: &[
            r#"{"asset":{"version":"1.1"},"geometricError":10"#,
            TWO_LEVELS,
        ],
    },
    File {
        address: SUBTREE,
        pieces: &[
            HEADER, VIEWS, BY_BITS, THREE_ROWS, SPACES, SPACES, SPACES, SPACES, SPACES, HEIGHTS,
        ],
    },
];

/// A schema that is refused, in a document of which no subtree is there: it has no implicit tile.
pub(super) const NO_TILE_FILES: [File; 1] = [File {
    address: ROOT,
    pieces: &[HEAD, UNKNOWN_ENUM, TWO_LEVELS],
}];

/// A table of each kind.
pub(super) const NINE_ROW_FILES: [File; 2] = [
    File {
        address: ROOT,
        pieces: &[HEAD, KINDS, THREE_LEVELS],
    },
    File {
        address: SUBTREE,
        pieces: &[
            HEADER,
            VIEWS,
            ALL,
            NINE_ROWS,
            SPACES,
            SPACES,
            SPACES,
            "                                                            ",
            CELLS,
        ],
    },
];

pub(super) const FALLING_FILES: [File; 2] = [
    File {
        address: ROOT,
        pieces: &[HEAD, KINDS, THREE_LEVELS],
    },
    File {
        address: SUBTREE,
        pieces: &[
            HEADER,
            VIEWS,
            ALL,
            NINE_ROWS,
            SPACES,
            SPACES,
            SPACES,
            "                                                            ",
            FALLING,
        ],
    },
];

pub(super) const CUT_CHARACTER_FILES: [File; 2] = [
    File {
        address: ROOT,
        pieces: &[HEAD, KINDS, THREE_LEVELS],
    },
    File {
        address: SUBTREE,
        pieces: &[
            HEADER,
            VIEWS,
            ALL,
            NINE_ROWS,
            SPACES,
            SPACES,
            SPACES,
            "                                                            ",
            CUT_CHARACTER,
        ],
    },
];

/// Two levels in subtrees of one level each, of which two are there below the first: one table is
/// refused.
pub(super) const BELOW: [File; 4] = [
    File {
        address: ROOT,
        pieces: &[HEAD, HEIGHT, EACH_LEVEL],
    },
    File {
        address: "http://tiles/s000.subtree",
        pieces: &[
            HEADER, VIEWS, ALL_BELOW, THREE_ROWS, SPACES, SPACES, SPACES, SPACES, SPACES, " ",
            HEIGHTS,
        ],
    },
    File {
        address: "http://tiles/s110.subtree",
        pieces: &[
            HEADER,
            VIEWS,
            ALL,
            UNKNOWN_CLASS,
            SPACES,
            SPACES,
            SPACES,
            SPACES,
            SPACES,
            " ",
            HEIGHTS,
        ],
    },
    File {
        address: "http://tiles/s101.subtree",
        pieces: &[
            HEADER, VIEWS, ALL, TWO_ROWS, SPACES, SPACES, SPACES, SPACES, SPACES, " ", HEIGHTS,
        ],
    },
];

/// A further document with metadata, and one behind it whose schema is refused.
pub(super) const FURTHER: [File; 3] = [
    File {
        address: ROOT,
        pieces: &[TOP, TILE, r#"1,"content":{"uri":"e.json"}}}"#],
    },
    File {
        address: OTHER,
        pieces: &[HEAD, HEIGHT, TWO_LEVELS],
    },
    File {
        address: SUBTREE,
        pieces: &[
            HEADER, VIEWS, BY_BITS, THREE_ROWS, SPACES, SPACES, SPACES, SPACES, SPACES, HEIGHTS,
        ],
    },
];

pub(super) const SECOND_REFUSED: [File; 4] = [
    File {
        address: ROOT,
        pieces: &[
            TOP,
            TILE,
            r#"1,"contents":[{"uri":"e.json"},{"uri":"f.json"}]}}"#,
        ],
    },
    File {
        address: OTHER,
        pieces: &[HEAD, HEIGHT, TWO_LEVELS],
    },
    File {
        address: "http://tiles/f.json",
        pieces: &[HEAD, UNKNOWN_ENUM, TWO_LEVELS],
    },
    File {
        address: SUBTREE,
        pieces: &[
            HEADER, VIEWS, BY_BITS, THREE_ROWS, SPACES, SPACES, SPACES, SPACES, SPACES, HEIGHTS,
        ],
    },
];
