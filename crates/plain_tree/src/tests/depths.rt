//! Documents that lead to one another: 16 are followed below the root.

use super::lines::{Row, check_lines};
use std::test::Fail;

/// Two documents that are external tilesets of each other.
static EACH_OTHER: [Row; 1] = [(
    r#"{$,"content":{"uri":"u.json"}}"#,
    &[(
        "http://tiles/u.json",
        Some(
            r#"{"boundingVolume":{"sphere":[0,0,0,5]},"geometricError":2,
                "content":{"uri":"t.json"}}"#,
        ),
    )],
    "r 1000000 Replace external\n\
    r/0 2000000 Replace external\n\
    r/0/0 1000000 Replace external\n\
    r/0/0/0 2000000 Replace external\n\
    r/0/0/0/0 1000000 Replace external\n\
    r/0/0/0/0/0 2000000 Replace external\n\
    r/0/0/0/0/0/0 1000000 Replace external\n\
    r/0/0/0/0/0/0/0 2000000 Replace external\n\
    r/0/0/0/0/0/0/0/0 1000000 Replace external\n\
    r/0/0/0/0/0/0/0/0/0 2000000 Replace external\n\
    r/0/0/0/0/0/0/0/0/0/0 1000000 Replace external\n\
    r/0/0/0/0/0/0/0/0/0/0/0 2000000 Replace external\n\
    r/0/0/0/0/0/0/0/0/0/0/0/0 1000000 Replace external\n\
    r/0/0/0/0/0/0/0/0/0/0/0/0/0 2000000 Replace external\n\
    r/0/0/0/0/0/0/0/0/0/0/0/0/0/0 1000000 Replace external\n\
    r/0/0/0/0/0/0/0/0/0/0/0/0/0/0/0 2000000 Replace external\n\
    r/0/0/0/0/0/0/0/0/0/0/0/0/0/0/0/0 1000000 Replace external\n",
)];

/// A document that is its own external tileset.
static ITSELF: [Row; 1] = [(
    r#"{$,"content":{"uri":"t.json"}}"#,
    &[],
    "r 1000000 Replace external\n\
    r/0 1000000 Replace external\n\
    r/0/0 1000000 Replace external\n\
    r/0/0/0 1000000 Replace external\n\
    r/0/0/0/0 1000000 Replace external\n\
    r/0/0/0/0/0 1000000 Replace external\n\
    r/0/0/0/0/0/0 1000000 Replace external\n\
    r/0/0/0/0/0/0/0 1000000 Replace external\n\
    r/0/0/0/0/0/0/0/0 1000000 Replace external\n\
    r/0/0/0/0/0/0/0/0/0 1000000 Replace external\n\
    r/0/0/0/0/0/0/0/0/0/0 1000000 Replace external\n\
    r/0/0/0/0/0/0/0/0/0/0/0 1000000 Replace external\n\
    r/0/0/0/0/0/0/0/0/0/0/0/0 1000000 Replace external\n\
    r/0/0/0/0/0/0/0/0/0/0/0/0/0 1000000 Replace external\n\
    r/0/0/0/0/0/0/0/0/0/0/0/0/0/0 1000000 Replace external\n\
    r/0/0/0/0/0/0/0/0/0/0/0/0/0/0/0 1000000 Replace external\n\
    r/0/0/0/0/0/0/0/0/0/0/0/0/0/0/0/0 1000000 Replace external\n",
)];

#[test]
fn documents_within_each_other(rt: HostRuntime) -> Result<(), Fail> {
    check_lines(&rt, rt.alloc(), &EACH_OTHER)
}

#[test]
fn a_document_within_itself(rt: HostRuntime) -> Result<(), Fail> {
    check_lines(&rt, rt.alloc(), &ITSELF)
}
