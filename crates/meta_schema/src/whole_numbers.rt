//! Whole numbers.

ghost use Rattle.std.specs.Prelude.{◌≡◌, option_map};
ghost use Rattle.std.specs.Option.{option_and_then};
ghost use Rattle.json_decimal.specs.Parts.{number_of};
ghost use Rattle.json_decimal.specs.WholeNumbers.{clamped, integer};
ghost use Rattle.meta_schema.specs.Enums as spec;
ghost use Rattle.meta_schema.specs.Seen.{value_seen};

use crate::component_type::ComponentType;
use crate::error::{Field, SchemaError};
use json_decimal::{Json, clamped_whole_of};

/// The spelling of a number.
fn spelling_of(value: Option<&Json>) -> Option<&str>
    ensures { option_map (λ s. s.now) result ≡ option_and_then number_of (value_seen value.entry) }
{
    match value {
        Some(Json::Number(spelling)) => Some(spelling.as_str()),
        _ => None,
    }
}

/// The value of a whole number. What is greater than 64 bits hold may be another one that is so too.
fn clamped_whole(value: Option<&Json>) -> Option<i128>
    ensures { result ≡ option_map clamped (option_and_then integer (value_seen value.entry)) }
{
    clamped_whole_of(spelling_of(value)?)
}

/// The value, which has to be one of this type.
fn in_type(value: i128, component: ComponentType) -> Result<i128, SchemaError>
    ensures { result ≡ spec.in_type component value }
{
    if component.least() <= value && value <= component.greatest() {
        Ok(value)
    } else {
        Err(SchemaError::OutOfRange)
    }
}

/// The value of a whole number, which has to be one of this type.
pub fn whole_in(value: Option<&Json>, component: ComponentType) -> Result<i128, SchemaError>
    ensures { result ≡ spec.whole_in component (value_seen value.entry) }
{
    match clamped_whole(value) {
        Some(whole) => in_type(whole, component),
        None => Err(SchemaError::Shape {
            field: Field::Value,
        }),
    }
}
