//! The bits of contents.

use super::*;

/// What stands for two contents where the tiles are all there.
static CAUSES: [Row; 7] = [
    (
        r#"{"tileAvailability":{"constant":1},"contentAvailability":{"constant":1}}"#,
        CONTENTS,
    ),
    (
        r#"{"tileAvailability":{"constant":1},"contentAvailability":null}"#,
        CONTENTS,
    ),
    (
        r#"{"tileAvailability":{"constant":1},"contentAvailability":[{"constant":2}]}"#,
        CONTENTS,
    ),
    (
        r#"{"tileAvailability":{"constant":1},"contentAvailability":[{"constant":1},0]}"#,
        CONTENTS,
    ),
    // The third is passed over.
    (
        r#"{"tileAvailability":{"constant":1},"contentAvailability":[{"constant":1},{"constant":1},0]}"#,
        CHILDREN,
    ),
    (r#"{"tileAvailability":{"constant":1}}"#, CHILDREN),
    (r#"{"contentAvailability":0}"#, TILES),
];

#[test]
fn causes_of_contents(rt: HostRuntime) -> Result<(), Fail> {
    check_causes(&rt, &CAUSES)
}

#[test]
fn a_list_without_contents(rt: HostRuntime) {
    let json = r#"{"tileAvailability":{"constant":1},"contentAvailability":0}"#;
    assert_eq!(rt; outcome(rt.alloc(), json, &[], 0).err(), Some(CONTENTS));
}

/// The list that is written, and the bits of two contents.
static LISTS: [(&str, &str, &str); 6] = [
    ("", "00000", "00000"),
    (r#""contentAvailability":[],"#, "00000", "00000"),
    (
        r#""contentAvailability":[{"constant":1}],"#,
        "11111",
        "00000",
    ),
    (
        r#""contentAvailability":[{"constant":0},{"constant":1}],"#,
        "00000",
        "11111",
    ),
    (
        r#""contentAvailability":[{"constant":1},{"bitstream":0}],"#,
        "11111",
        "11010",
    ),
    (
        r#""contentAvailability":[{"bitstream":0},{"constant":1},{"bitstream":9}],"#,
        "11010",
        "11111",
    ),
];

#[test]
fn bits_of_two_contents(rt: HostRuntime) -> Result<(), Fail> {
    let alloc = rt.alloc();
    for (list, first, second) in &LISTS {
        let json = format!(in alloc; r#"{{{list}{}"#, &TWO_LEVELS[1..])?;
        match outcome(alloc, json.as_str(), &ELEVEN, 2) {
            Ok(subtree) => assert!(rt; have_contents(&subtree, first, second), "of {list}"),
            Err(cause) => assert!(rt; false, "{cause} of {list}"),
        }
    }
    Ok(())
}

/// There are these two contents and no third.
fn have_contents(subtree: &Subtree, first: &str, second: &str) -> bool {
    match (subtree.content(0), subtree.content(1), subtree.content(2)) {
        (Some(a), Some(b), None) => are(a, first) && are(b, second) && subtree.content_count() == 2,
        _ => false,
    }
}
