//! Causes of tiles but for their volumes and contents.

use super::{Row, TILE, TOP, check_causes};
use crate::{DocumentError, Field};
use std::test::Fail;

static CAUSES_OF_TILES: [Row; 22] = [
    (
        &[TOP, r#"{"boundingVolume":{"sphere":[0,0,0,1]}}}"#],
        DocumentError::MissingField {
            field: Field::GeometricError,
            tile: 0,
        },
    ),
    (
        &[
            TOP,
            r#"{"boundingVolume":{"sphere":[0,0,0,1]},"geometricError":null}}"#,
        ],
        DocumentError::Shape {
            field: Field::GeometricError,
            tile: 0,
        },
    ),
    (
        &[
            TOP,
            r#"{"boundingVolume":{"sphere":[0,0,0,1]},"geometricError":-0.0000005}}"#,
        ],
        DocumentError::OutOfRange {
            field: Field::GeometricError,
            tile: 0,
        },
    ),
    (
        &[
            TOP,
            r#"{"boundingVolume":{"sphere":[0,0,0,1]},"geometricError":-1,"#,
            r#""viewerRequestVolume":5}}"#,
        ],
        DocumentError::Shape {
            field: Field::ViewerRequestVolume,
            tile: 0,
        },
    ),
    (
        &[TOP, TILE, r#","refine":1}}"#],
        DocumentError::Shape {
            field: Field::Refine,
            tile: 0,
        },
    ),
    (
        &[TOP, TILE, r#","refine":null}}"#],
        DocumentError::Shape {
            field: Field::Refine,
            tile: 0,
        },
    ),
    (
        &[TOP, TILE, r#","refine":"OTHER"}}"#],
        DocumentError::RefineWord { tile: 0 },
    ),
    (
        &[TOP, TILE, r#","refine":"ADD\u0044"}}"#],
        DocumentError::RefineWord { tile: 0 },
    ),
    (
        &[TOP, TILE, r#","refine":"","transform":5}}"#],
        DocumentError::RefineWord { tile: 0 },
    ),
    (
        &[TOP, TILE, r#","transform":null}}"#],
        DocumentError::Shape {
            field: Field::Transform,
            tile: 0,
        },
    ),
    (
        &[TOP, TILE, r#","transform":[1]}}"#],
        DocumentError::Shape {
            field: Field::Transform,
            tile: 0,
        },
    ),
    (
        &[
            TOP,
            TILE,
            r#","transform":[1e20,0,0,0,0,1,0,0,0,0,1,0,0,0,0,null]}}"#,
        ],
        DocumentError::Shape {
            field: Field::Transform,
            tile: 0,
        },
    ),
    (
        &[
            TOP,
            TILE,
            r#","transform":[1,0,0,0,0,1,0,0,0,0,1,0,1e20,0,0,2]}}"#,
        ],
        DocumentError::OutOfRange {
            field: Field::Transform,
            tile: 0,
        },
    ),
    (
        &[
            TOP,
            TILE,
            r#","transform":[1,0,0,0,0,1,0,0,0,0,1,0,0,0,0,2]}}"#,
        ],
        DocumentError::NotAffine { tile: 0 },
    ),
    (
        &[
            TOP,
            TILE,
            r#","transform":[1,0,0,1,0,1,0,0,0,0,1,0,0,0,0,1],"content":5}}"#,
        ],
        DocumentError::NotAffine { tile: 0 },
    ),
    (
        &[
            TOP,
            r#"{"boundingVolume":{"sphere":[0,0,0,1]},"refine":"other"}}"#,
        ],
        DocumentError::MissingField {
            field: Field::GeometricError,
            tile: 0,
        },
    ),
    (
        &[TOP, r#"{"geometricError":-1,"viewerRequestVolume":5}}"#],
        DocumentError::MissingField {
            field: Field::BoundingVolume,
            tile: 0,
        },
    ),
    (
        &[TOP, TILE, r#","refine":"other"}}"#],
        DocumentError::RefineWord { tile: 0 },
    ),
    (
        &[
            TOP,
            TILE,
            r#","transform":[1,0,0,0,0,1,0,0,0,0,1,0,0,0,0]}}"#,
        ],
        DocumentError::Shape {
            field: Field::Transform,
            tile: 0,
        },
    ),
    (
        &[
            TOP,
            TILE,
            r#","transform":[1,0,0,0,0,1,0,0,0,0,1,0,0,0,0,1,0]}}"#,
        ],
        DocumentError::Shape {
            field: Field::Transform,
            tile: 0,
        },
    ),
    (
        &[
            TOP,
            TILE,
            r#","transform":[1,0,0,0,0,1,0,0,0,0,1048576.000000001,0,0,0,0,1]}}"#,
        ],
        DocumentError::OutOfRange {
            field: Field::Transform,
            tile: 0,
        },
    ),
    (
        &[
            TOP,
            TILE,
            r#","transform":[1048576,0,0,0,0,1,0,0,0,0,1,0,0,0,0,0],"content":5,"contents":5}}"#,
        ],
        DocumentError::NotAffine { tile: 0 },
    ),
];

static CAUSES_OF_CHILDREN: [Row; 10] = [
    (
        &[TOP, TILE, r#","children":5}}"#],
        DocumentError::Shape {
            field: Field::Children,
            tile: 0,
        },
    ),
    (
        &[TOP, TILE, r#","children":null}}"#],
        DocumentError::Shape {
            field: Field::Children,
            tile: 0,
        },
    ),
    (
        &[TOP, TILE, r#","children":[],"children":5}}"#],
        DocumentError::Shape {
            field: Field::Children,
            tile: 0,
        },
    ),
    (
        &[
            TOP,
            r#"{"children":[5],"boundingVolume":{"sphere":[0,0,0,1]}}}"#,
        ],
        DocumentError::MissingField {
            field: Field::GeometricError,
            tile: 0,
        },
    ),
    (
        &[TOP, TILE, r#","children":[5]}}"#],
        DocumentError::Shape {
            field: Field::Tile,
            tile: 1,
        },
    ),
    (
        &[
            TOP,
            TILE,
            r#","children":["#,
            TILE,
            r#","children":["#,
            TILE,
            "}]},7]}}",
        ],
        DocumentError::Shape {
            field: Field::Tile,
            tile: 3,
        },
    ),
    (
        &[
            TOP,
            TILE,
            r#","children":["#,
            TILE,
            "},",
            TILE,
            r#","refine":5},{}]}}"#,
        ],
        DocumentError::Shape {
            field: Field::Refine,
            tile: 2,
        },
    ),
    (
        &[
            TOP,
            TILE,
            r#","children":["#,
            TILE,
            r#","children":[{}]},7]}}"#,
        ],
        DocumentError::MissingField {
            field: Field::BoundingVolume,
            tile: 2,
        },
    ),
    (
        &[
            TOP,
            TILE,
            r#","children":["#,
            TILE,
            r#","children":5},7]}}"#,
        ],
        DocumentError::Shape {
            field: Field::Children,
            tile: 1,
        },
    ),
    (
        &[
            TOP,
            TILE,
            r#","children":["#,
            TILE,
            r#"},"#,
            r#"{"boundingVolume":{"sphere":[0,0,0,1]}},{}]}}"#,
        ],
        DocumentError::MissingField {
            field: Field::GeometricError,
            tile: 2,
        },
    ),
];

#[test]
fn causes_of_tiles(rt: HostRuntime) -> Result<(), Fail> {
    check_causes(&rt, &CAUSES_OF_TILES)
}

#[test]
fn causes_of_children(rt: HostRuntime) -> Result<(), Fail> {
    check_causes(&rt, &CAUSES_OF_CHILDREN)
}
