//! What schemas are read as, and why some aren't.

mod causes;
mod large;
mod values;

use crate::{ComponentType, PropertyType, Schema, SchemaError};
use json_decimal::{JsonError, parse};
use std::alloc::Global;
use std::process::Abort;
use std::test::Fail;

/// Reads the schema that a JSON text spells.
fn outcome(alloc: Global, text: &str) -> Result<Schema, SchemaError> {
    match parse(alloc, text.as_bytes()) {
        Ok(json) => Schema::read(alloc, &json),
        Err(JsonError::OutOfMemory) => Err(SchemaError::OutOfMemory),
        Err(_) => Err(SchemaError::UnknownEnum),
    }
}

/// The schema of these pieces of a text.
fn joined(alloc: Global, pieces: &[&str]) -> Result<Schema, SchemaError> {
    let mut text = String::new(alloc);
    for piece in pieces {
        text.push_str(piece)?;
    }
    outcome(alloc, text.as_str())
}

fn component_text(component: ComponentType) -> &'static str {
    match component {
        ComponentType::Int8 => "INT8",
        ComponentType::Uint8 => "UINT8",
        ComponentType::Int16 => "INT16",
        ComponentType::Uint16 => "UINT16",
        ComponentType::Int32 => "INT32",
        ComponentType::Uint32 => "UINT32",
        ComponentType::Int64 => "INT64",
        ComponentType::Uint64 => "UINT64",
    }
}

fn kind_text(kind: PropertyType) -> &'static str {
    match kind {
        PropertyType::Whole { component } => component_text(component),
        PropertyType::Boolean => "BOOLEAN",
        PropertyType::Words => "STRING",
        PropertyType::Enum { number: 0 } => "enum 0",
        PropertyType::Enum { number: 1 } => "enum 1",
        PropertyType::Enum { .. } => "enum",
        PropertyType::Skipped => "skipped",
    }
}

/// A property's members, and what its values are.
static KINDS: [(&str, &str); 22] = [
    (r#""type":"SCALAR","componentType":"INT8""#, "INT8"),
    (r#""type":"SCALAR","componentType":"UINT8""#, "UINT8"),
    (r#""type":"SCALAR","componentType":"INT16""#, "INT16"),
    (r#""type":"SCALAR","componentType":"UINT16""#, "UINT16"),
    (r#""type":"SCALAR","componentType":"INT32""#, "INT32"),
    (r#""type":"SCALAR","componentType":"UINT32""#, "UINT32"),
    (r#""type":"SCALAR","componentType":"INT64""#, "INT64"),
    (r#""componentType":"UINT64","type":"SCALAR""#, "UINT64"),
    (r#""type":"SCALAR","componentType":"FLOAT32""#, "skipped"),
    (r#""type":"SCALAR","componentType":"uint8""#, "skipped"),
    (
        r#""type":"BOOLEAN","array":false,"normalized":null"#,
        "BOOLEAN",
    ),
    (r#""type":"STRING","required":true"#, "STRING"),
    (r#""type":"ENUM","enumType":"F""#, "enum 0"),
    (r#""type":"ENUM","enumType":"E""#, "enum 1"),
    (r#""type":"VEC3""#, "skipped"),
    (r#""type":"no type""#, "skipped"),
    (r#""type":"ENUM","enumType":"none","array":true"#, "skipped"),
    (r#""type":"SCALAR","normalized":true"#, "skipped"),
    (r#""type":"SCALAR","offset":null"#, "skipped"),
    (r#""type":"SCALAR","scale":2"#, "skipped"),
    (r#""type":"STRING","noData":"x""#, "skipped"),
    (r#""type":"ENUM","default":"A""#, "skipped"),
];

/// The first property of the class `c`.
fn first_kind(schema: &Schema) -> Option<PropertyType> {
    Some(schema.class("c")?.properties().first()?.kind())
}

#[test]
fn kinds(rt: HostRuntime) -> Result<(), Fail> {
    for (own, kind) in KINDS.iter() {
        let schema = joined(
            rt.alloc(),
            &[
                r#"{"enums":{"F":{"values":[]},"E":{"values":[]}},"#,
                r#""classes":{"c":{"properties":{"p":{"#,
                *own,
                "}}}}}",
            ],
        )?;
        assert_eq!(rt; first_kind(&schema).map(kind_text), Some(*kind), "of {own}");
    }
    Ok(())
}

/// Of a repeated name the last counts, at the place of the first.
const REPEATED: &str = concat!(
    r#"{"classes":1,"classes":{"d":{},"c":7,"c":{"properties":{"a":5,"b":{"type":"STRING"},"#,
    r#""\u0061":{"type":1,"type":"BOOLEAN"}}}},"id":"x"}"#,
);

#[test]
fn repeated_names(rt: HostRuntime) -> Result<(), Fail> {
    let schema = outcome(rt.alloc(), REPEATED)?;
    schema.is_kept();
    let class = schema.class("c").ok_or("no class")?;
    let [a, b] = class.properties() else {
        return Err("not two properties".into());
    };
    assert_eq!(rt; (a.name().as_str(), kind_text(a.kind())), ("a", "BOOLEAN"));
    assert_eq!(rt; (b.name().as_str(), kind_text(b.kind())), ("b", "STRING"));
    assert_eq!(rt; schema.class("d").map(|d| d.properties().len()), Some(0));
    assert!(rt; schema.class("e").is_none() && schema.enum_at(0).is_none());
    Ok(())
}
