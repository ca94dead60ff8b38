//! Causes of volumes.

use super::{Row, TILE, TOP, check_causes};
use crate::{DocumentError, Field};
use std::test::Fail;

static CAUSES_OF_VOLUMES: [Row; 28] = [
    (
        &[TOP, r#"{"boundingVolume":null}}"#],
        DocumentError::Shape {
            field: Field::BoundingVolume,
            tile: 0,
        },
    ),
    (
        &[TOP, r#"{"boundingVolume":[]}}"#],
        DocumentError::Shape {
            field: Field::BoundingVolume,
            tile: 0,
        },
    ),
    (
        &[TOP, r#"{"boundingVolume":{"box":[0,0,0,5]}}}"#],
        DocumentError::Shape {
            field: Field::BoundingVolume,
            tile: 0,
        },
    ),
    (
        &[TOP, r#"{"boundingVolume":{"box":[1],"sphere":[0,0,0,1]}}}"#],
        DocumentError::Shape {
            field: Field::BoundingVolume,
            tile: 0,
        },
    ),
    (
        &[
            TOP,
            r#"{"boundingVolume":{"box":[0,0,0,1,0,0,0,1,0,0,0,"x"]}}}"#,
        ],
        DocumentError::Shape {
            field: Field::BoundingVolume,
            tile: 0,
        },
    ),
    (
        &[
            TOP,
            r#"{"boundingVolume":{"box":[0,0,0,1,0,0,0,1,0,0,0,1,0]}}}"#,
        ],
        DocumentError::Shape {
            field: Field::BoundingVolume,
            tile: 0,
        },
    ),
    (
        &[
            TOP,
            r#"{"boundingVolume":{"box":[0,0,0,1,0,0,0,1,0,0,0,1e9],"sphere":[0,0,0,1]}}}"#,
        ],
        DocumentError::OutOfRange {
            field: Field::BoundingVolume,
            tile: 0,
        },
    ),
    (
        &[
            TOP,
            r#"{"boundingVolume":{"box":[0,0,0,1,0,0,0,1,0,0,0,1],"region":null}}}"#,
        ],
        DocumentError::MissingField {
            field: Field::GeometricError,
            tile: 0,
        },
    ),
    (
        &[TOP, r#"{"boundingVolume":{"sphere":[1e20,0,0,"x"]}}}"#],
        DocumentError::Shape {
            field: Field::BoundingVolume,
            tile: 0,
        },
    ),
    (
        &[TOP, r#"{"boundingVolume":{"sphere":[0,0,0,1,0]}}}"#],
        DocumentError::Shape {
            field: Field::BoundingVolume,
            tile: 0,
        },
    ),
    (
        &[TOP, r#"{"boundingVolume":{"sphere":[0,0,1]}}}"#],
        DocumentError::Shape {
            field: Field::BoundingVolume,
            tile: 0,
        },
    ),
    (
        &[TOP, r#"{"boundingVolume":{"sphere":null}}}"#],
        DocumentError::Shape {
            field: Field::BoundingVolume,
            tile: 0,
        },
    ),
    (
        &[TOP, r#"{"boundingVolume":{"sphere":[1e20,0,0,1]}}}"#],
        DocumentError::OutOfRange {
            field: Field::BoundingVolume,
            tile: 0,
        },
    ),
    (
        &[
            TOP,
            r#"{"boundingVolume":{"sphere":[68719476.736,-68719476.736,0,1]}}}"#,
        ],
        DocumentError::MissingField {
            field: Field::GeometricError,
            tile: 0,
        },
    ),
    (
        &[
            TOP,
            r#"{"boundingVolume":{"sphere":[68719476.7365,0,0,1]}}}"#,
        ],
        DocumentError::OutOfRange {
            field: Field::BoundingVolume,
            tile: 0,
        },
    ),
    (
        &[TOP, r#"{"boundingVolume":{"sphere":[0,0,0,-1]}}}"#],
        DocumentError::OutOfRange {
            field: Field::BoundingVolume,
            tile: 0,
        },
    ),
    (
        &[TOP, r#"{"boundingVolume":{"sphere":[0,0,0,-0.0004]}}}"#],
        DocumentError::MissingField {
            field: Field::GeometricError,
            tile: 0,
        },
    ),
    (
        &[TOP, r#"{"boundingVolume":{"region":null}}}"#],
        DocumentError::RegionVolume { tile: 0 },
    ),
    (
        &[TOP, r#"{"boundingVolume":{"region":[0,0,0.1,0.1,0,9]}}}"#],
        DocumentError::RegionVolume { tile: 0 },
    ),
    (
        &[TOP, r#"{"boundingVolume":{"cylinder":1}}}"#],
        DocumentError::NoVolume { tile: 0 },
    ),
    (
        &[
            TOP,
            r#"{"boundingVolume":{"sphere":5,"sphere":[0,0,0,1]}}}"#,
        ],
        DocumentError::MissingField {
            field: Field::GeometricError,
            tile: 0,
        },
    ),
    (
        &[TOP, TILE, r#","viewerRequestVolume":{}}}"#],
        DocumentError::NoVolume { tile: 0 },
    ),
    (
        &[TOP, TILE, r#","viewerRequestVolume":null}}"#],
        DocumentError::Shape {
            field: Field::ViewerRequestVolume,
            tile: 0,
        },
    ),
    (
        &[
            TOP,
            TILE,
            r#","viewerRequestVolume":{"sphere":[0,0,0,-1]}}}"#,
        ],
        DocumentError::OutOfRange {
            field: Field::ViewerRequestVolume,
            tile: 0,
        },
    ),
    (
        &[TOP, r#"{"boundingVolume":{"sphere":[0,0,1e400,1]}}}"#],
        DocumentError::OutOfRange {
            field: Field::BoundingVolume,
            tile: 0,
        },
    ),
    (
        &[
            TOP,
            r#"{"boundingVolume":{"box":[-1e400,0,0,1,0,0,0,1,0,0,0,1],"region":null}}}"#,
        ],
        DocumentError::OutOfRange {
            field: Field::BoundingVolume,
            tile: 0,
        },
    ),
    (
        &[
            TOP,
            TILE,
            r#","viewerRequestVolume":{"region":[0,0,0,0,0,0]}}}"#,
        ],
        DocumentError::RegionVolume { tile: 0 },
    ),
    (
        &[
            TOP,
            TILE,
            r#","children":["#,
            TILE,
            r#"},{"boundingVolume":{"region":5}}]}}"#,
        ],
        DocumentError::RegionVolume { tile: 2 },
    ),
];

#[test]
fn causes_of_volumes(rt: HostRuntime) -> Result<(), Fail> {
    check_causes(&rt, &CAUSES_OF_VOLUMES)
}
