//! Schemas that aren't read.

use super::outcome;
use crate::{Field, SchemaError};
use std::process::Abort;
use std::test::Fail;

/// A schema, and the first cause why it isn't read.
type Row = (&'static str, SchemaError);

fn check_causes<R: AllocGlobal + Abort>(rt: &R, rows: &[Row]) -> Result<(), Fail> {
    for (schema, cause) in rows {
        let met = outcome(rt.alloc(), schema).err();
        assert_eq!(rt; met, Some(*cause), "of {schema}");
    }
    Ok(())
}

const TOP: SchemaError = SchemaError::Shape { field: Field::Top };

const CLASSES: SchemaError = SchemaError::Shape {
    field: Field::Classes,
};

const ENUMS: SchemaError = SchemaError::Shape {
    field: Field::Enums,
};

const CLASS: SchemaError = SchemaError::Shape {
    field: Field::Class,
};

const PROPERTIES: SchemaError = SchemaError::Shape {
    field: Field::Properties,
};

const PROPERTY: SchemaError = SchemaError::Shape {
    field: Field::Property,
};

const TYPE: SchemaError = SchemaError::Shape { field: Field::Type };

const COMPONENT_TYPE: SchemaError = SchemaError::Shape {
    field: Field::ComponentType,
};

const ENUM: SchemaError = SchemaError::Shape { field: Field::Enum };

const VALUES: SchemaError = SchemaError::Shape {
    field: Field::Values,
};

const VALUE: SchemaError = SchemaError::Shape {
    field: Field::Value,
};

const VALUE_TYPE: SchemaError = SchemaError::Shape {
    field: Field::ValueType,
};

static ENUM_ROWS: [Row; 18] = [
    ("[]", TOP),
    (r#"{"enums":[]}"#, ENUMS),
    (r#"{"enums":{"E":5}}"#, ENUM),
    (r#"{"enums":{"E":{}}}"#, VALUES),
    (r#"{"enums":{"E":{"values":{}}}}"#, VALUES),
    (r#"{"enums":{"E":{"valueType":5}}}"#, VALUE_TYPE),
    (
        r#"{"enums":{"E":{"valueType":"FLOAT32","values":5}}}"#,
        VALUE_TYPE,
    ),
    (r#"{"enums":{"E":{"values":[5]}}}"#, VALUE),
    (r#"{"enums":{"E":{"values":[{"value":1}]}}}"#, VALUE),
    (
        r#"{"enums":{"E":{"values":[{"name":1,"value":1}]}}}"#,
        VALUE,
    ),
    (r#"{"enums":{"E":{"values":[{"name":"A"}]}}}"#, VALUE),
    (
        r#"{"enums":{"E":{"values":[{"name":"A","value":0.5}]}}}"#,
        VALUE,
    ),
    (
        r#"{"enums":{"E":{"values":[{"name":"A","value":65536}]}}}"#,
        SchemaError::OutOfRange,
    ),
    (
        r#"{"enums":{"E":{"values":[{"name":"A","value":-1},5]}}}"#,
        SchemaError::OutOfRange,
    ),
    (
        r#"{"enums":{"E":{"values":[5,{"name":"A","value":-1}]}}}"#,
        VALUE,
    ),
    (
        r#"{"enums":{"E":{"valueType":"UINT64","values":[{"name":"A","value":18446744073709551616}]}}}"#,
        SchemaError::OutOfRange,
    ),
    (
        r#"{"enums":{"E":{"valueType":"INT8","values":[{"name":"A","value":-129}]}}}"#,
        SchemaError::OutOfRange,
    ),
    (
        r#"{"enums":{"E":{"values":[{"name":"A","value":1e99}]},"F":5}}"#,
        SchemaError::OutOfRange,
    ),
];

#[test]
fn enums(rt: HostRuntime) -> Result<(), Fail> {
    check_causes(&rt, &ENUM_ROWS)
}

static CLASS_ROWS: [Row; 16] = [
    (r#"{"classes":null}"#, CLASSES),
    (r#"{"classes":{"c":[]}}"#, CLASS),
    (r#"{"classes":{"c":{"properties":1}}}"#, PROPERTIES),
    (r#"{"classes":{"c":{"properties":{"p":"x"}}}}"#, PROPERTY),
    (r#"{"classes":{"c":{"properties":{"p":{}}}}}"#, TYPE),
    (
        r#"{"classes":{"c":{"properties":{"p":{"type":1,"array":true}}}}}"#,
        TYPE,
    ),
    (
        r#"{"classes":{"c":{"properties":{"p":{"type":"SCALAR"}}}}}"#,
        COMPONENT_TYPE,
    ),
    (
        r#"{"classes":{"c":{"properties":{"p":{"type":"SCALAR","componentType":1}}}}}"#,
        COMPONENT_TYPE,
    ),
    (
        r#"{"classes":{"c":{"properties":{"p":{"type":"ENUM"}}}}}"#,
        SchemaError::UnknownEnum,
    ),
    (
        r#"{"classes":{"c":{"properties":{"p":{"type":"ENUM","enumType":"E"}}}}}"#,
        SchemaError::UnknownEnum,
    ),
    (
        r#"{"classes":{"c":{"properties":{"p":{"type":"ENUM","enumType":5}}}}}"#,
        SchemaError::UnknownEnum,
    ),
    (
        r#"{"classes":{"c":{"properties":{"p":{"type":"ENUM"},"q":5}}}}"#,
        SchemaError::UnknownEnum,
    ),
    (
        r#"{"classes":{"c":{"properties":{"p":5,"q":{"type":"ENUM"}}}}}"#,
        PROPERTY,
    ),
    (
        r#"{"classes":{"c":{"properties":{"p":{"type":"ENUM"}}},"d":5}}"#,
        SchemaError::UnknownEnum,
    ),
    (r#"{"classes":{"c":5},"enums":5}"#, ENUMS),
    (
        r#"{"classes":5,"enums":{"E":{"values":[{"name":"A","value":-1}]}}}"#,
        SchemaError::OutOfRange,
    ),
];

#[test]
fn classes(rt: HostRuntime) -> Result<(), Fail> {
    check_causes(&rt, &CLASS_ROWS)
}
