//! Causes that stand before the root tile.

use super::{Row, TOP, check_causes};
use crate::{DocumentError, Field};
use std::test::Fail;

static CAUSES_OF_THE_TOP: [Row; 28] = [
    (&["{"], DocumentError::NotJson),
    (&[""], DocumentError::NotJson),
    (
        &["[]"],
        DocumentError::Shape {
            field: Field::Top,
            tile: 0,
        },
    ),
    (
        &["{}"],
        DocumentError::MissingField {
            field: Field::Asset,
            tile: 0,
        },
    ),
    (
        &[r#"{"asset":null}"#],
        DocumentError::Shape {
            field: Field::Asset,
            tile: 0,
        },
    ),
    (
        &[r#"{"asset":{}}"#],
        DocumentError::MissingField {
            field: Field::Version,
            tile: 0,
        },
    ),
    (
        &[r#"{"asset":{"version":1.1}}"#],
        DocumentError::Shape {
            field: Field::Version,
            tile: 0,
        },
    ),
    (
        &[r#"{"asset":{"version":null}}"#],
        DocumentError::Shape {
            field: Field::Version,
            tile: 0,
        },
    ),
    (&[r#"{"asset":{"version":"1.2"}}"#], DocumentError::Version),
    (
        &[r#"{"asset":{"version":"1.1"},"asset":{"version":"0.0"}}"#],
        DocumentError::Version,
    ),
    (
        &[r#"{"a\u0073set":{"version":"1.2"}}"#],
        DocumentError::Version,
    ),
    (
        &[r#"{"asset":{"version":"1.0"},"extensionsRequired":null}"#],
        DocumentError::Shape {
            field: Field::ExtensionsRequired,
            tile: 0,
        },
    ),
    (
        &[r#"{"asset":{"version":"1.0"},"extensionsRequired":["X",5]}"#],
        DocumentError::Shape {
            field: Field::ExtensionsRequired,
            tile: 0,
        },
    ),
    (
        &[r#"{"asset":{"version":"1.0"},"extensionsRequired":["3DTILES_content_gltf","X"]}"#],
        DocumentError::ExtensionRequired,
    ),
    (
        &[r#"{"asset":{"version":"1.0"},"extensionsRequired":["3DTILES_content_gltf"]}"#],
        DocumentError::MissingField {
            field: Field::GeometricError,
            tile: 0,
        },
    ),
    (
        &[r#"{"asset":{"version":"1.0"},"extensionsRequired":["3DTILES\u005fcontent_gltf"]}"#],
        DocumentError::MissingField {
            field: Field::GeometricError,
            tile: 0,
        },
    ),
    (
        &[r#"{"asset":{"version":"1.0"},"extensionsRequired":[]}"#],
        DocumentError::MissingField {
            field: Field::GeometricError,
            tile: 0,
        },
    ),
    (
        &[r#"{"asset":{"version":"1.0"},"geometricError":null}"#],
        DocumentError::Shape {
            field: Field::GeometricError,
            tile: 0,
        },
    ),
    (
        &[r#"{"asset":{"version":"1.0"},"geometricError":-1}"#],
        DocumentError::OutOfRange {
            field: Field::GeometricError,
            tile: 0,
        },
    ),
    (
        &[r#"{"asset":{"version":"1.0"},"geometricError":-0.0000001}"#],
        DocumentError::MissingField {
            field: Field::Root,
            tile: 0,
        },
    ),
    (
        &[TOP, "null}"],
        DocumentError::Shape {
            field: Field::Tile,
            tile: 0,
        },
    ),
    (
        &[TOP, "{}}"],
        DocumentError::MissingField {
            field: Field::BoundingVolume,
            tile: 0,
        },
    ),
    (
        &[TOP, r#"5,"root":{}}"#],
        DocumentError::MissingField {
            field: Field::BoundingVolume,
            tile: 0,
        },
    ),
    (
        &[r#"{"asset":{"version":"0.9"},"extensionsRequired":5}"#],
        DocumentError::Version,
    ),
    (
        &[r#"{"extensionsRequired":5,"geometricError":1}"#],
        DocumentError::MissingField {
            field: Field::Asset,
            tile: 0,
        },
    ),
    (
        &[r#"{"asset":{"version":"1.1"},"extensionsRequired":["3DTILES_metadata"],"root":{}}"#],
        DocumentError::ExtensionRequired,
    ),
    (
        &[r#"{"asset":{"version":"1.1"},"root":5}"#],
        DocumentError::MissingField {
            field: Field::GeometricError,
            tile: 0,
        },
    ),
    (&[TOP, "{}}, \"schema\":"], DocumentError::NotJson),
];

#[test]
fn causes_of_the_top(rt: HostRuntime) -> Result<(), Fail> {
    check_causes(&rt, &CAUSES_OF_THE_TOP)
}
