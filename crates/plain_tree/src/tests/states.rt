//! Trees of several documents, and external tilesets in each state.

use super::lines::{Row, check_lines};
use std::test::Fail;

/// The trees of two documents, of which the second is `u.json`.
static NESTED: [Row; 3] = [
    (
        r#"{$,"content":{"uri":"u.json"}}"#,
        &[("http://tiles/u.json", Some("{$}"))],
        "r 1000000 Replace external\nr/0 1000000 Replace\n",
    ),
    // It is refused.
    (
        r#"{$,"content":{"uri":"u.json"}}"#,
        &[("http://tiles/u.json", Some("{}"))],
        "r 1000000 Replace external\n",
    ),
    // The refinement and the transform are handed on, and the transform counts once.
    (
        r#"{$,"refine":"ADD","transform":[2,0,0,0,0,2,0,0,0,0,2,0,0,0,0,1],
            "content":{"uri":"u.json"}}"#,
        &[(
            "http://tiles/u.json",
            Some(r#"{$,"children":[{$,"transform":[3,0,0,0,0,3,0,0,0,0,3,0,0,0,0,1]}]}"#),
        )],
        "r 2000000 Add external\nr/0 2000000 Add\nr/0/0 6000000 Add\n",
    ),
];

#[test]
fn trees_of_two_documents(rt: HostRuntime) -> Result<(), Fail> {
    check_lines(&rt, rt.alloc(), &NESTED)
}

/// External tilesets stand behind the written children. That of number 1 is lost.
static NUMBERS: [Row; 1] = [(
    r#"{$,"children":[{$}],
        "contents":[{"uri":"u.json"},{"uri":"a.glb"},{"uri":"w.json"},{"uri":"b.glb"}]}"#,
    &[
        ("http://tiles/u.json", None),
        ("http://tiles/w.json", Some("{$}")),
    ],
    "r 1000000 Replace external http://tiles/a.glb http://tiles/b.glb\n\
    r/0 1000000 Replace\n\
    r/2 1000000 Replace\n",
)];

#[test]
fn numbers_of_children(rt: HostRuntime) -> Result<(), Fail> {
    check_lines(&rt, rt.alloc(), &NUMBERS)
}

/// Four external tilesets behind one written child: the first isn't loaded, the second is absent,
/// the third is refused, and the fourth is read.
static EACH: [Row; 1] = [(
    r#"{$,"children":[{$}],
        "contents":[{"uri":"u.json"},{"uri":"v.json"},{"uri":"w.json"},{"uri":"x.json"}]}"#,
    &[
        ("http://tiles/v.json", None),
        ("http://tiles/w.json", Some("{}")),
        ("http://tiles/x.json", Some("{$}")),
    ],
    "r 1000000 Replace external\n\
    r/0 1000000 Replace\n\
    r/1 1000000 Replace nowhere waits http://tiles/u.json\n\
    r/4 1000000 Replace\n",
)];

#[test]
fn external_tilesets_in_each_state(rt: HostRuntime) -> Result<(), Fail> {
    check_lines(&rt, rt.alloc(), &EACH)
}
