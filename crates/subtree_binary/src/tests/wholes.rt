//! Subtrees that are read.

use super::*;
use json_decimal::Json;

#[test]
fn two_levels_of_a_quadtree(rt: HostRuntime) -> Result<(), Fail> {
    let alloc = rt.alloc();
    match outcome(alloc, TWO_LEVELS, &ELEVEN, 0) {
        Ok(subtree) => {
            assert!(rt; are(subtree.tiles(), "11010"));
            assert!(rt; are(subtree.children(), "0000000000000000"));
            assert_eq!(rt; subtree.content_count(), 0);
            assert!(rt; subtree.content(0).is_none());
            assert_eq!(rt; subtree.binary().as_slice(), ELEVEN.as_slice());
            assert!(rt; matches!(subtree.json(alloc)?, Json::Object(_)));
        }
        Err(cause) => assert!(rt; false, "{cause}"),
    }
    Ok(())
}

/// Values of `tileAvailability`, and the bits that each stands for.
static SPELLINGS: [(&str, &str); 8] = [
    (r#"{"constant":0}"#, "00000"),
    (r#"{"constant":1}"#, "11111"),
    (r#"{"constant":0.0}"#, "00000"),
    (r#"{"constant":1e0}"#, "11111"),
    (r#"{"constant":-0}"#, "00000"),
    // A constant counts before a bitstream, if it is one.
    (r#"{"bitstream":9,"constant":10e-1}"#, "11111"),
    (r#"{"bitstream":0.0,"constant":2}"#, "11010"),
    (r#"{"bitstream":0,"availableCount":7}"#, "11010"),
];

#[test]
fn spellings_of_availability(rt: HostRuntime) -> Result<(), Fail> {
    let alloc = rt.alloc();
    for (value, bits) in &SPELLINGS {
        let json = format!(in alloc;
            concat!(
                r#"{{"buffers":[{{"byteLength":1}}],"bufferViews":[{{"buffer":0,"byteLength":1}}],"#,
                r#""tileAvailability":{},"childSubtreeAvailability":{{"constant":1}}}}"#
            ),
            value
        )?;
        match outcome(alloc, json.as_str(), &ELEVEN, 0) {
            Ok(subtree) => {
                assert!(rt; are(subtree.tiles(), bits), "of {value}");
                assert!(rt; are(subtree.children(), "1111111111111111"));
            }
            Err(cause) => assert!(rt; false, "{cause} of {value}"),
        }
    }
    Ok(())
}

/// The kind of tree, its levels, and how many tiles and child subtrees there are.
static COUNTS: [(bool, u8, u64, u64); 6] = [
    (false, 1, 1, 4),
    (true, 1, 1, 8),
    (false, 2, 5, 16),
    (true, 2, 9, 64),
    (false, 12, 5_592_405, 16_777_216),
    (true, 8, 2_396_745, 16_777_216),
];

/// How many tiles and child subtrees there are in a subtree of ones.
fn counts_of(alloc: Global, octree: bool, levels: u8) -> Result<(u64, u64), SubtreeError> {
    let json = r#"{"tileAvailability":{"constant":1},"childSubtreeAvailability":{"constant":1}}"#;
    let bytes = of_chunks(alloc, json, &[])?;
    if levels == 0 || levels > if octree { 8 } else { 12 } {
        return Ok((0, 0));
    }
    let subtree = read(alloc, &bytes, octree, levels, 0)?;
    Ok((subtree.tiles().len(), subtree.children().len()))
}

#[test]
fn counts(rt: HostRuntime) {
    for (octree, levels, tiles, children) in &COUNTS {
        let met = counts_of(rt.alloc(), *octree, *levels);
        assert_eq!(rt; met, Ok((*tiles, *children)), "of {levels} levels");
    }
}
