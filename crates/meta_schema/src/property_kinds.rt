//! What the values of a property are.

ghost use Rattle.std.specs.Prelude.{◌≡◌};
ghost use Rattle.std.specs.Option.{option_and_then};
ghost use Rattle.json_decimal.specs.JsonValue.{pairs_of};
ghost use Rattle.meta_schema.specs.Causes.{Gives};
ghost use Rattle.meta_schema.specs.Classes as spec;
ghost use Rattle.meta_schema.specs.Members.{names};
ghost use Rattle.meta_schema.specs.Seen.{value_seen};

use crate::component_type::ComponentType;
use crate::error::{Field, SchemaError};
use crate::forms::text_at;
use crate::members::NamedMembers;
use crate::property::PropertyType;
use json_decimal::{Json, JsonObject};

/// Whether the value is `true`.
fn is_true(own: &JsonObject, name: &str) -> bool
    ensures { result ≡ spec.is_true name.now (pairs_of own.now) }
{
    match own.last(name) {
        Some(Json::Truth(truth)) => *truth,
        _ => false,
    }
}

/// Whether a property isn't read, whatever its type.
fn is_skipped(own: &JsonObject) -> bool
    ensures { result ≡ spec.is_skipped (pairs_of own.now) }
{
    is_true(own, "array")
        || is_true(own, "normalized")
        || own.last("offset").is_some()
        || own.last("scale").is_some()
        || own.last("noData").is_some()
        || own.last("default").is_some()
}

/// SCALAR.
fn scalar_kind(own: &JsonObject) -> Result<PropertyType, SchemaError>
    ensures { result ≡ spec.scalar_kind (pairs_of own.now) }
{
    let name = text_at(own.last("componentType"), Field::ComponentType)?;
    match ComponentType::named(name) {
        Some(component) => Ok(PropertyType::Whole { component }),
        None => Ok(PropertyType::Skipped),
    }
}

/// The place of the enum that a value names.
fn enum_place(value: Option<&Json>, enums: &NamedMembers<'_>) -> Option<usize>
    ensures { result ≡ option_and_then (spec.enum_number (names enums.now)) (value_seen value.entry) }
{
    match value {
        Some(Json::Words(name)) => enums.place_of(name.as_str()),
        _ => None,
    }
}

/// ENUM. A number of 2^32 or more counts as want of memory.
fn enum_kind(own: &JsonObject, enums: &NamedMembers<'_>) -> Result<PropertyType, SchemaError>
    ensures { Gives (λ kind. kind) result (spec.enum_kind (names enums.now) (pairs_of own.now)) }
{
    let Some(place) = enum_place(own.last("enumType"), enums) else {
        return Err(SchemaError::UnknownEnum);
    };
    match u32::try_from(place) {
        Ok(number) => Ok(PropertyType::Enum { number }),
        Err(_) => Err(SchemaError::OutOfMemory),
    }
}

/// What the values of a property with these members are, where the enums are those of `enums`.
pub fn property_kind(
    own: &JsonObject,
    enums: &NamedMembers<'_>,
) -> Result<PropertyType, SchemaError>
    ensures { Gives (λ kind. kind) result (spec.property_kind (names enums.now) (pairs_of own.now)) }
{
    let name = text_at(own.last("type"), Field::Type)?;
    if is_skipped(own) {
        return Ok(PropertyType::Skipped);
    }
    match name {
        "SCALAR" => scalar_kind(own),
        "BOOLEAN" => Ok(PropertyType::Boolean),
        "STRING" => Ok(PropertyType::Words),
        "ENUM" => enum_kind(own, enums),
        _ => Ok(PropertyType::Skipped),
    }
}
