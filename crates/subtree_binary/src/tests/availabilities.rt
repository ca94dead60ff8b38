//! Availabilities and their bitstreams.

use super::*;

/// What stands for tiles.
static SHAPES: [Row; 14] = [
    (r#"{"tileAvailability":null}"#, TILES),
    (r#"{"tileAvailability":[]}"#, TILES),
    (r#"{"tileAvailability":1}"#, TILES),
    (r#"{"tileAvailability":{}}"#, TILES),
    (r#"{"tileAvailability":{"constant":2}}"#, TILES),
    (r#"{"tileAvailability":{"constant":-1}}"#, TILES),
    (r#"{"tileAvailability":{"constant":0.5}}"#, TILES),
    (r#"{"tileAvailability":{"constant":true}}"#, TILES),
    (r#"{"tileAvailability":{"constant":"1"}}"#, TILES),
    (r#"{"tileAvailability":{"bitstream":0}}"#, TILES),
    (
        r#"{"bufferViews":[{"buffer":0,"byteLength":1}],"tileAvailability":{"bitstream":5}}"#,
        TILES,
    ),
    (
        r#"{"bufferViews":[{"buffer":0,"byteLength":1}],"tileAvailability":{"bitstream":1}}"#,
        TILES,
    ),
    (
        r#"{"bufferViews":[{"buffer":0,"byteLength":1}],"tileAvailability":{"bitstream":-1}}"#,
        TILES,
    ),
    (r#"{"tileAvailability":{"constant":1}}"#, CHILDREN),
];

#[test]
fn forms_of_availability(rt: HostRuntime) -> Result<(), Fail> {
    check_causes(&rt, &SHAPES)
}

/// Buffers and views, and what a bitstream of view 0 meets. The binary chunk has 8 bytes.
static STREAMS: [(&str, SubtreeError); 14] = [
    (
        r#"[],"bufferViews":[{"buffer":0,"byteLength":1}]"#,
        SubtreeError::ExternalBuffer,
    ),
    (
        r#"[{"byteLength":8},{"byteLength":8}],"bufferViews":[{"buffer":1,"byteLength":1}]"#,
        SubtreeError::ExternalBuffer,
    ),
    (
        r#"[{"byteLength":8,"uri":"x"}],"bufferViews":[{"buffer":0,"byteLength":1}]"#,
        SubtreeError::ExternalBuffer,
    ),
    (
        r#"[{"byteLength":8,"uri":null}],"bufferViews":[{"buffer":0,"byteLength":9}]"#,
        SubtreeError::ExternalBuffer,
    ),
    (
        r#"[{"byteLength":8}],"bufferViews":[{"buffer":0,"byteLength":9}]"#,
        SubtreeError::ViewRange,
    ),
    (
        r#"[{"byteLength":8}],"bufferViews":[{"buffer":0,"byteOffset":8,"byteLength":1}]"#,
        SubtreeError::ViewRange,
    ),
    // Past the buffer, though in the binary chunk.
    (
        r#"[{"byteLength":4}],"bufferViews":[{"buffer":0,"byteOffset":4,"byteLength":1}]"#,
        SubtreeError::ViewRange,
    ),
    // Past the binary chunk, though in the buffer.
    (
        r#"[{"byteLength":9}],"bufferViews":[{"buffer":0,"byteOffset":8,"byteLength":1}]"#,
        SubtreeError::ViewRange,
    ),
    (
        r#"[{"byteLength":9223372036854775807}],"bufferViews":[{"buffer":0,"byteOffset":9223372036854775807,"byteLength":9223372036854775807}]"#,
        SubtreeError::ViewRange,
    ),
    (
        r#"[{"byteLength":8}],"bufferViews":[{"buffer":0,"byteOffset":9,"byteLength":0}]"#,
        SubtreeError::ViewRange,
    ),
    (
        r#"[{"byteLength":8}],"bufferViews":[{"buffer":0,"byteLength":0}]"#,
        SubtreeError::BitsShort,
    ),
    (
        r#"[{"byteLength":8}],"bufferViews":[{"buffer":0,"byteOffset":8,"byteLength":0}]"#,
        SubtreeError::BitsShort,
    ),
    // A byte is enough, and what comes next isn't there.
    (
        r#"[{"byteLength":8}],"bufferViews":[{"buffer":0,"byteOffset":7,"byteLength":1}]"#,
        CHILDREN,
    ),
    (
        r#"[{"byteLength":8}],"bufferViews":[{"buffer":-0,"byteLength":8}]"#,
        CHILDREN,
    ),
];

#[test]
fn bitstreams(rt: HostRuntime) -> Result<(), Fail> {
    let alloc = rt.alloc();
    for (stored, cause) in &STREAMS {
        let json = format!(in alloc;
            r#"{{"buffers":{stored},"tileAvailability":{{"bitstream":0}}}}"#
        )?;
        let met = outcome(alloc, json.as_str(), &ELEVEN, 0).err();
        assert_eq!(rt; met, Some(*cause), "of {stored}");
    }
    Ok(())
}

#[test]
fn too_few_bytes_for_the_children(rt: HostRuntime) -> Result<(), Fail> {
    check_causes(
        &rt,
        &[(
            r#"{"buffers":[{"byteLength":8}],"bufferViews":[{"buffer":0,"byteLength":1}],"tileAvailability":{"bitstream":0},"childSubtreeAvailability":{"bitstream":0}}"#,
            SubtreeError::BitsShort,
        )],
    )
}
