//! The JSON chunk up to its buffers and buffer views.

use super::*;

static TOPS: [Row; 6] = [
    ("", SubtreeError::NotJson),
    ("{", SubtreeError::NotJson),
    ("{}}", SubtreeError::NotJson),
    ("[]", TOP),
    ("null", TOP),
    // What is absent is no list of buffers that is wrong.
    ("{}", TILES),
];

#[test]
fn top_objects(rt: HostRuntime) -> Result<(), Fail> {
    check_causes(&rt, &TOPS)
}

static BUFFER_LISTS: [Row; 11] = [
    (r#"{"buffers":null}"#, BUFFERS),
    (r#"{"buffers":{"byteLength":8}}"#, BUFFERS),
    (r#"{"buffers":[8]}"#, BUFFERS),
    (r#"{"buffers":[{}]}"#, BUFFERS),
    (r#"{"buffers":[{"byteLength":"8"}]}"#, BUFFERS),
    (r#"{"buffers":[{"byteLength":-1}]}"#, BUFFERS),
    (r#"{"buffers":[{"byteLength":0.5}]}"#, BUFFERS),
    (
        r#"{"buffers":[{"byteLength":9223372036854775808}]}"#,
        BUFFERS,
    ),
    // Those behind the first are looked at too, and before the views.
    (
        r#"{"buffers":[{"byteLength":8},{}],"bufferViews":0}"#,
        BUFFERS,
    ),
    // Of several members of a name the last counts.
    (r#"{"buffers":[],"buffers":0}"#, BUFFERS),
    (
        r#"{"buffers":0,"buffers":[{"byteLength":9223372036854775807}]}"#,
        TILES,
    ),
];

#[test]
fn buffers(rt: HostRuntime) -> Result<(), Fail> {
    check_causes(&rt, &BUFFER_LISTS)
}

static VIEW_LISTS: [Row; 9] = [
    (r#"{"bufferViews":{}}"#, VIEWS),
    (r#"{"bufferViews":[[]]}"#, VIEWS),
    (r#"{"bufferViews":[{"byteLength":1}]}"#, VIEWS),
    (r#"{"bufferViews":[{"buffer":0}]}"#, VIEWS),
    (
        r#"{"bufferViews":[{"buffer":0,"byteOffset":null,"byteLength":1}]}"#,
        VIEWS,
    ),
    (
        r#"{"bufferViews":[{"buffer":0,"byteOffset":-1,"byteLength":1}]}"#,
        VIEWS,
    ),
    (r#"{"bufferViews":[{"buffer":1e19,"byteLength":1}]}"#, VIEWS),
    (
        r#"{"bufferViews":[{"buffer":0,"byteLength":1},0],"tileAvailability":0}"#,
        VIEWS,
    ),
    (r#"{"bufferViews":[{"buffer":7,"byteLength":1.0}]}"#, TILES),
];

#[test]
fn buffer_views(rt: HostRuntime) -> Result<(), Fail> {
    check_causes(&rt, &VIEW_LISTS)
}
