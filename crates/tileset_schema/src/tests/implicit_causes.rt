//! Causes of implicit tiling.

use super::{BOXED, Row, TILE, TOP, check_causes, joined, outcome};
use crate::{DocumentError, Field};
use std::process::Abort;
use std::test::Fail;

/// Values of `implicitTiling` up to some member, how each of them ends, and the first cause of each.
type Tilings = (&'static str, &'static [&'static str], DocumentError);

const SCHEME: &str = r#"{"subdivisionScheme":"#;

const QUADTREE: &str = r#"{"subdivisionScheme":"QUADTREE","subtreeLevels":"#;

const OCTREE: &str = r#"{"subdivisionScheme":"OCTREE","subtreeLevels":"#;

const AVAILABLE: &str = r#"{"subdivisionScheme":"QUADTREE","subtreeLevels":4,"availableLevels":"#;

const SUBTREES: &str =
    r#"{"subdivisionScheme":"QUADTREE","subtreeLevels":4,"availableLevels":9,"subtrees":"#;

const OCTREE_SUBTREES: &str =
    r#"{"subdivisionScheme":"OCTREE","subtreeLevels":4,"availableLevels":9,"subtrees":"#;

/// The member of an implicit quadtree.
const TILING: &str = concat!(
    r#","implicitTiling":{"subdivisionScheme":"QUADTREE","subtreeLevels":4,"#,
    r#""availableLevels":9,"subtrees":{"uri":"{level}/{x}/{y}"}}"#
);

static CAUSES_OF_TILINGS: [Tilings; 15] = [
    (
        "",
        &["5", "null", "[]", r#""QUADTREE""#],
        DocumentError::Shape {
            field: Field::ImplicitTiling,
            tile: 0,
        },
    ),
    (
        "",
        &["{}", r#"{"subtreeLevels":0,"scheme":"QUADTREE"}"#],
        DocumentError::MissingField {
            field: Field::Scheme,
            tile: 0,
        },
    ),
    (
        SCHEME,
        &[
            "5}",
            "null}",
            r#""quadtree"}"#,
            r#""OCTREE ","subtreeLevels":0}"#,
            r#""QUADTREE","subdivisionScheme":""}"#,
        ],
        DocumentError::Shape {
            field: Field::Scheme,
            tile: 0,
        },
    ),
    (
        SCHEME,
        &[
            r#""QUADTREE"}"#,
            r#""OCTREE"}"#,
            r#""","subdivisionScheme":"\u0051UADTREE","availableLevels":99}"#,
        ],
        DocumentError::MissingField {
            field: Field::SubtreeLevels,
            tile: 0,
        },
    ),
    (
        QUADTREE,
        &[
            "null}",
            r#""4"}"#,
            "[4]}",
            "4.5}",
            "4e-1}",
            "1e-400}",
            r#"0.5,"availableLevels":0}"#,
        ],
        DocumentError::Shape {
            field: Field::SubtreeLevels,
            tile: 0,
        },
    ),
    (
        QUADTREE,
        &[
            "0}",
            "-0}",
            "0e400}",
            "-4}",
            "13}",
            "1.3E1}",
            "260}",
            "1e400}",
            "-1e400}",
            "9223372036854775808}",
            "18446744073709551620}",
            r#"13,"availableLevels":null}"#,
        ],
        DocumentError::ImplicitLimits { tile: 0 },
    ),
    (
        OCTREE,
        &["0}", "9}", "12}", "1e400}"],
        DocumentError::ImplicitLimits { tile: 0 },
    ),
    (
        QUADTREE,
        &["1}", "12}", "4.0}", "0.4E1}", "40e-1}", "0.00012e+5}"],
        DocumentError::MissingField {
            field: Field::AvailableLevels,
            tile: 0,
        },
    ),
    (
        OCTREE,
        &["1}", "8}", r#"9,"subtreeLevels":80e-1,"subtrees":5}"#],
        DocumentError::MissingField {
            field: Field::AvailableLevels,
            tile: 0,
        },
    ),
    (
        AVAILABLE,
        &["null}", "0.5}", r#""1"}"#, "1e-400}"],
        DocumentError::Shape {
            field: Field::AvailableLevels,
            tile: 0,
        },
    ),
    (
        AVAILABLE,
        &["0}", "31}", "-1}", "257}", "1e400}", r#"0,"subtrees":5}"#],
        DocumentError::ImplicitLimits { tile: 0 },
    ),
    (
        AVAILABLE,
        &["1}", "30}", "3e1}", "30.000}"],
        DocumentError::MissingField {
            field: Field::Subtrees,
            tile: 0,
        },
    ),
    (
        SUBTREES,
        &[
            "null}",
            "[]}",
            "{}}",
            r#"{"uri":5}}"#,
            r#"{"uri":"s","uri":null}}"#,
        ],
        DocumentError::Shape {
            field: Field::Subtrees,
            tile: 0,
        },
    ),
    (
        SUBTREES,
        &[
            r#"{"uri":"{level"}}"#,
            r#"{"uri":"s/{z}"}}"#,
            r#"{"uri":"{}"}}"#,
            r#"{"uri":"{Level}"}}"#,
            r#"{"uri":"\u007bz\u007d"}}"#,
        ],
        DocumentError::BadAddress { tile: 0 },
    ),
    (
        OCTREE_SUBTREES,
        &[r#"{"uri":"{w}"}}"#, r#"{"uri":"{z}{z"}}"#],
        DocumentError::BadAddress { tile: 0 },
    ),
];

/// Reads a root in a box with each value, and compares the cause.
fn check_tilings<R: AllocGlobal + Abort>(
    rt: &R,
    front: &str,
    ends: &[&str],
    cause: DocumentError,
) -> Result<(), Fail> {
    for end in ends {
        let pieces = [TOP, BOXED, r#","implicitTiling":"#, front, end, "}}"];
        let bytes = joined(rt.alloc(), &pieces)?;
        let met = outcome(rt.alloc(), &bytes).err();
        assert_eq!(rt; met, Some(cause), "of the value that ends in {end}");
    }
    Ok(())
}

#[test]
fn causes_of_tilings(rt: HostRuntime) -> Result<(), Fail> {
    for (front, ends, cause) in &CAUSES_OF_TILINGS {
        check_tilings(&rt, front, ends, *cause)?;
    }
    Ok(())
}

/// What stands beside `implicitTiling`, and the order of causes.
static CAUSES_BESIDE_TILINGS: [Row; 20] = [
    (
        &[TOP, TILE, TILING, r#","content":5,"contents":5}}"#],
        DocumentError::BothContents { tile: 0 },
    ),
    (
        &[TOP, TILE, r#","implicitTiling":5,"content":null}}"#],
        DocumentError::Shape {
            field: Field::Content,
            tile: 0,
        },
    ),
    (
        &[TOP, TILE, r#","implicitTiling":5,"content":{}}}"#],
        DocumentError::MissingField {
            field: Field::Uri,
            tile: 0,
        },
    ),
    (
        &[TOP, TILE, r#","implicitTiling":5,"contents":5}}"#],
        DocumentError::Shape {
            field: Field::Content,
            tile: 0,
        },
    ),
    (
        &[TOP, TILE, r#","implicitTiling":5,"contents":[{},5]}}"#],
        DocumentError::Shape {
            field: Field::Content,
            tile: 0,
        },
    ),
    (
        &[
            TOP,
            TILE,
            r#","implicitTiling":5,"contents":[{"uri":"{"},{"uri":5}]}}"#,
        ],
        DocumentError::Shape {
            field: Field::Uri,
            tile: 0,
        },
    ),
    (
        &[
            TOP,
            BOXED,
            r#","content":{"uri":"{z}"},"implicitTiling":"#,
            AVAILABLE,
            "1}}}",
        ],
        DocumentError::MissingField {
            field: Field::Subtrees,
            tile: 0,
        },
    ),
    (
        &[
            TOP,
            BOXED,
            r#","content":{"uri":"{z}"},"implicitTiling":"#,
            SUBTREES,
            r#"{"uri":"{z}"}}}}"#,
        ],
        DocumentError::BadAddress { tile: 0 },
    ),
    (
        &[TOP, TILE, TILING, r#","content":{"uri":"{z}"}}}"#],
        DocumentError::BadAddress { tile: 0 },
    ),
    (
        &[
            TOP,
            TILE,
            TILING,
            r#","contents":[{"uri":"{x}"},{"uri":"{z}"}]}}"#,
        ],
        DocumentError::BadAddress { tile: 0 },
    ),
    (
        &[TOP, TILE, TILING, r#","children":5}}"#],
        DocumentError::ImplicitSphere { tile: 0 },
    ),
    (
        &[TOP, TILE, TILING, r#","content":{"uri":"{x}"}}}"#],
        DocumentError::ImplicitSphere { tile: 0 },
    ),
    (
        &[TOP, BOXED, TILING, r#","children":5}}"#],
        DocumentError::Shape {
            field: Field::Children,
            tile: 0,
        },
    ),
    (
        &[TOP, BOXED, TILING, r#","children":{}}}"#],
        DocumentError::Shape {
            field: Field::Children,
            tile: 0,
        },
    ),
    (
        &[TOP, BOXED, TILING, r#","children":["#, TILE, "}]}}"],
        DocumentError::ImplicitChildren { tile: 0 },
    ),
    (
        &[TOP, BOXED, TILING, r#","children":[5,6]}}"#],
        DocumentError::ImplicitChildren { tile: 0 },
    ),
    (
        &[TOP, BOXED, r#","implicitTiling":5,"children":[5]}}"#],
        DocumentError::Shape {
            field: Field::ImplicitTiling,
            tile: 0,
        },
    ),
    (
        &[
            TOP,
            BOXED,
            r#","children":["#,
            TILE,
            r#"},"#,
            TILE,
            TILING,
            "}]}}",
        ],
        DocumentError::ImplicitSphere { tile: 2 },
    ),
    (
        &[TOP, TILE, r#","children":["#, BOXED, TILING, "},5]}}"],
        DocumentError::Shape {
            field: Field::Tile,
            tile: 2,
        },
    ),
    (
        &[
            TOP,
            BOXED,
            TILING,
            r#","implicitTiling":{},"implicitTiling":null}}"#,
        ],
        DocumentError::Shape {
            field: Field::ImplicitTiling,
            tile: 0,
        },
    ),
];

#[test]
fn causes_beside_tilings(rt: HostRuntime) -> Result<(), Fail> {
    check_causes(&rt, &CAUSES_BESIDE_TILINGS)
}
