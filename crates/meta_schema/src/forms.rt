//! The forms that the parts of a schema have to have.

ghost use Rattle.std.specs.Prelude.{◌≡◌, map};
ghost use Rattle.json_decimal.specs.JsonValue.{pairs_of};
ghost use Rattle.json_decimal.specs.View.{value_of};
ghost use Rattle.meta_schema.specs.Causes.{seen_by};
ghost use Rattle.meta_schema.specs.Members as spec;
ghost use Rattle.meta_schema.specs.Seen.{value_seen};

use crate::error::{Field, SchemaError};
use json_decimal::{Json, JsonObject};

/// An object.
pub fn object_of(value: &Json, field: Field) -> Result<&JsonObject, SchemaError>
    ensures { seen_by (λ object. pairs_of object.now) result
        ≡ spec.object_of field (value_of value.now) }
{
    match value {
        Json::Object(object) => Ok(object),
        _ => Err(SchemaError::Shape { field }),
    }
}

/// The values of a list.
pub fn list_of(value: &Json, field: Field) -> Result<&[Json], SchemaError>
    ensures { seen_by (λ items. map value_of items.now) result
        ≡ spec.list_of field (value_of value.now) }
{
    match value {
        Json::List(list) => Ok(list.as_slice()),
        _ => Err(SchemaError::Shape { field }),
    }
}

/// A text.
pub fn text_of(value: &Json, field: Field) -> Result<&str, SchemaError>
    ensures { seen_by (λ text. text.now) result ≡ spec.text_of field (value_of value.now) }
{
    match value {
        Json::Words(text) => Ok(text.as_str()),
        _ => Err(SchemaError::Shape { field }),
    }
}

/// A text that has to be there.
pub fn text_at(value: Option<&Json>, field: Field) -> Result<&str, SchemaError>
    ensures { seen_by (λ text. text.now) result ≡ spec.text_at field (value_seen value.entry) }
{
    match value {
        Some(value) => text_of(value, field),
        None => Err(SchemaError::Shape { field }),
    }
}
