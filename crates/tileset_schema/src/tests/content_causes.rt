//! Causes of contents.

use super::{Row, TILE, TOP, check_causes};
use crate::{DocumentError, Field};
use std::test::Fail;

static CAUSES_OF_CONTENTS: [Row; 19] = [
    (
        &[TOP, TILE, r#","content":5,"contents":5}}"#],
        DocumentError::BothContents { tile: 0 },
    ),
    (
        &[TOP, TILE, r#","content":null,"contents":[]}}"#],
        DocumentError::BothContents { tile: 0 },
    ),
    (
        &[TOP, TILE, r#","content":5}}"#],
        DocumentError::Shape {
            field: Field::Content,
            tile: 0,
        },
    ),
    (
        &[TOP, TILE, r#","content":null}}"#],
        DocumentError::Shape {
            field: Field::Content,
            tile: 0,
        },
    ),
    (
        &[TOP, TILE, r#","content":{}}}"#],
        DocumentError::MissingField {
            field: Field::Uri,
            tile: 0,
        },
    ),
    (
        &[TOP, TILE, r#","content":{"uri":null}}}"#],
        DocumentError::Shape {
            field: Field::Uri,
            tile: 0,
        },
    ),
    (
        &[TOP, TILE, r#","content":{"uri":"a","uri":5}}}"#],
        DocumentError::Shape {
            field: Field::Uri,
            tile: 0,
        },
    ),
    (
        &[TOP, TILE, r#","content":{"uri":"http://["}}}"#],
        DocumentError::BadAddress { tile: 0 },
    ),
    (
        &[TOP, TILE, r#","content":{"uri":"http:\/\/\u005b"}}}"#],
        DocumentError::BadAddress { tile: 0 },
    ),
    (
        &[TOP, TILE, r#","contents":{}}}"#],
        DocumentError::Shape {
            field: Field::Content,
            tile: 0,
        },
    ),
    (
        &[TOP, TILE, r#","contents":[{},5]}}"#],
        DocumentError::Shape {
            field: Field::Content,
            tile: 0,
        },
    ),
    (
        &[TOP, TILE, r#","contents":[{},{"uri":5}]}}"#],
        DocumentError::MissingField {
            field: Field::Uri,
            tile: 0,
        },
    ),
    (
        &[TOP, TILE, r#","contents":[{"uri":"http://["},{"uri":5}]}}"#],
        DocumentError::Shape {
            field: Field::Uri,
            tile: 0,
        },
    ),
    (
        &[TOP, TILE, r#","contents":[{"uri":"a"},{}]}}"#],
        DocumentError::MissingField {
            field: Field::Uri,
            tile: 0,
        },
    ),
    (
        &[
            TOP,
            TILE,
            r#","contents":[{"uri":"a"},{"uri":"http://["}]}}"#,
        ],
        DocumentError::BadAddress { tile: 0 },
    ),
    (
        &[
            TOP,
            TILE,
            r#","contents":[{"uri":"http://["},{"uri":"a"}]}}"#,
        ],
        DocumentError::BadAddress { tile: 0 },
    ),
    (
        &[TOP, TILE, r#","content":{"uri":"http://["},"children":5}}"#],
        DocumentError::BadAddress { tile: 0 },
    ),
    (
        &[TOP, TILE, r#","contents":null}}"#],
        DocumentError::Shape {
            field: Field::Content,
            tile: 0,
        },
    ),
    (
        &[
            TOP,
            TILE,
            r#","children":["#,
            TILE,
            r#"},"#,
            TILE,
            r#","content":{"uri":"http://["}}]}}"#,
        ],
        DocumentError::BadAddress { tile: 2 },
    ),
];

#[test]
fn causes_of_contents(rt: HostRuntime) -> Result<(), Fail> {
    check_causes(&rt, &CAUSES_OF_CONTENTS)
}
