//! Metadata of implicit tiles. What is expected is worked out by hand from the bytes.

mod files;

use super::{File, PLAIN, Row, check_all};
use files::{
    BELOW, CUT_CHARACTER_FILES, FALLING_FILES, FURTHER, HEIGHT_FILES, MOST_ROW_FILES,
    NINE_ROW_FILES, NO_OBJECT_FILES, NO_SCHEMA_FILES, NO_TILE_FILES, OUT_OF_RANGE_FILES,
    SECOND_REFUSED, TWO_ROW_FILES, UNKNOWN_CLASS_FILES, UNKNOWN_ENUM_FILES, UNNAMED_FILES,
};
use std::test::Fail;

const META: [&str; 2] = ["meta", "t.json"];

const NO_FILES: [File; 0] = [];

const KIND_LINES: &str = "meta r b true\n\
    meta r t \"\"\n\
    meta r e \"tree\"\n\
    meta r f skipped\n\
    meta r!1.0.0 b false\n\
    meta r!1.0.0 t \"hi\"\n\
    meta r!1.0.0 e \"none\"\n\
    meta r!1.0.0 f skipped\n\
    meta r!2.0.0 b false\n\
    meta r!2.0.0 t \"\"\n\
    meta r!2.0.0 e \"none\"\n\
    meta r!2.0.0 f skipped\n\
    meta r!2.1.0 b false\n\
    meta r!2.1.0 t \"\"\n\
    meta r!2.1.0 e \"none\"\n\
    meta r!2.1.0 f skipped\n\
    meta r!2.0.1 b false\n\
    meta r!2.0.1 t \"\"\n\
    meta r!2.0.1 e \"none\"\n\
    meta r!2.0.1 f skipped\n\
    meta r!2.1.1 b true\n\
    meta r!2.1.1 t \"\"\n\
    meta r!2.1.1 e \"none\"\n\
    meta r!2.1.1 f skipped\n\
    meta r!1.1.0 b true\n\
    meta r!1.1.0 t \"\"\n\
    meta r!1.1.0 e \"none\"\n\
    meta r!1.1.0 f skipped\n\
    meta r!1.0.1 b false\n\
    meta r!1.0.1 t \"\"\n\
    meta r!1.0.1 e \"none\"\n\
    meta r!1.0.1 f skipped\n\
    meta r!1.1.1 b false\n\
    meta r!1.1.1 t \"\"\n\
    meta r!1.1.1 e \"none\"\n\
    meta r!1.1.1 f skipped\n";

static METADATA: [Row; 12] = [
    Row {
        name: "three rows",
        words: &META,
        files: &HEIGHT_FILES,
        text: "meta r h 10\n\
            meta r!1.0.0 h 20\n\
            meta r!1.0.1 h 30\n",
        ..PLAIN
    },
    Row {
        name: "two rows",
        words: &META,
        files: &TWO_ROW_FILES,
        text: "meta r h 10\n\
            meta r!1.0.0 h 20\n",
        ..PLAIN
    },
    Row {
        name: "an unknown class",
        words: &META,
        files: &UNKNOWN_CLASS_FILES,
        text: "table r UnknownClass\n",
        ..PLAIN
    },
    Row {
        name: "too many rows",
        words: &META,
        files: &MOST_ROW_FILES,
        text: "table r ViewRange\n",
        ..PLAIN
    },
    Row {
        name: "a table that no tile names",
        words: &META,
        files: &UNNAMED_FILES,
        ..PLAIN
    },
    Row {
        name: "a document without a schema",
        words: &META,
        files: &NO_SCHEMA_FILES,
        ..PLAIN
    },
    Row {
        name: "a refused schema of no implicit tile",
        words: &META,
        files: &NO_TILE_FILES,
        ..PLAIN
    },
    Row {
        name: "a table of each kind",
        words: &META,
        files: &NINE_ROW_FILES,
        text: KIND_LINES,
        ..PLAIN
    },
    Row {
        name: "offsets that fall",
        words: &META,
        files: &FALLING_FILES,
        text: "table r Offsets\n",
        ..PLAIN
    },
    Row {
        name: "a cut character",
        words: &META,
        files: &CUT_CHARACTER_FILES,
        text: "table r NotUtf8\n",
        ..PLAIN
    },
    Row {
        name: "child subtrees",
        words: &META,
        files: &BELOW,
        text: "meta r h 10\n\
            table r!1.1.0 UnknownClass\n\
            meta r!1.0.1 h 10\n",
        ..PLAIN
    },
    Row {
        name: "a further document",
        words: &META,
        files: &FURTHER,
        text: "meta r/0 h 10\n\
            meta r/0!1.0.0 h 20\n\
            meta r/0!1.0.1 h 30\n",
        ..PLAIN
    },
];

static REFUSALS: [Row; 7] = [
    Row {
        name: "an unknown enum",
        words: &META,
        files: &UNKNOWN_ENUM_FILES,
        status: 2,
        fault: "fault 2 schema UnknownEnum\n",
        ..PLAIN
    },
    Row {
        name: "a value out of range",
        words: &META,
        files: &OUT_OF_RANGE_FILES,
        status: 2,
        fault: "fault 2 schema OutOfRange\n",
        ..PLAIN
    },
    Row {
        name: "no object",
        words: &META,
        files: &NO_OBJECT_FILES,
        status: 2,
        fault: "fault 2 schema Shape\n",
        ..PLAIN
    },
    Row {
        name: "a second schema that is refused",
        words: &META,
        files: &SECOND_REFUSED,
        status: 2,
        fault: "fault 2 schema UnknownEnum\n",
        ..PLAIN
    },
    Row {
        name: "the second fetch fails",
        words: &META,
        files: &HEIGHT_FILES,
        failing_fetches: &[2],
        status: 3,
        fault: "fault 3 source 1\n",
        ..PLAIN
    },
    Row {
        name: "the second put fails",
        words: &META,
        files: &HEIGHT_FILES,
        failing_puts: &[2],
        status: 4,
        fault: "fault 4 out 1\n",
        text: "meta r h 10\n",
        ..PLAIN
    },
    Row {
        name: "no root document",
        words: &META,
        files: &NO_FILES,
        status: 8,
        fault: "fault 8 root Missing\n",
        ..PLAIN
    },
];

#[test]
fn metadata(rt: HostRuntime) -> Result<(), Fail> {
    check_all(&rt, &METADATA)
}

#[test]
fn refusals(rt: HostRuntime) -> Result<(), Fail> {
    check_all(&rt, &REFUSALS)
}
