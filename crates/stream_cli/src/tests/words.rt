//! Words that are no command.

use super::{PLAIN, Row, VIEW, check_all};
use std::test::Fail;

/// Words that are no command end so.
const NONE: Row<'static> = Row {
    status: 1,
    fault: "fault 1 words\n",
    ..PLAIN
};

static ROWS: [Row; 10] = [
    Row {
        name: "no word",
        words: &[],
        ..NONE
    },
    Row {
        name: "no root",
        words: &["cut"],
        ..NONE
    },
    Row {
        name: "no view",
        words: &["cut", "t.json"],
        ..NONE
    },
    Row {
        name: "a spare word",
        words: &["cut", "t.json", VIEW, VIEW],
        ..NONE
    },
    Row {
        name: "a view to list",
        words: &["tiles", "t.json", VIEW],
        ..NONE
    },
    Row {
        name: "no command",
        words: &["explicit", "t.json"],
        ..NONE
    },
    Row {
        name: "a height of 0",
        words: &["cut", "t.json", "@0,0,10000:0:1/2:256"],
        ..NONE
    },
    Row {
        name: "a leading zero",
        words: &["cut", "t.json", "@0,0,010000:1000:1/2:256"],
        ..NONE
    },
    Row {
        name: "an option",
        words: &["cut", "-t.json", VIEW],
        ..NONE
    },
    Row {
        name: "a root that is no address",
        words: &["tiles", "http://["],
        ..NONE
    },
];

#[test]
fn words_that_are_no_command(rt: HostRuntime) -> Result<(), Fail> {
    check_all(&rt, &ROWS)
}
