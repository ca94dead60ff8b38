//! Reading enums.

ghost use Rattle.std.specs.Prelude.{◌≡◌, map};
ghost use Rattle.json_decimal.specs.JsonValue.{pairs_of};
ghost use Rattle.json_decimal.specs.View.{value_of};
ghost use Rattle.meta_schema.specs.Causes.{Gives, each};
ghost use Rattle.meta_schema.specs.Enums as spec;
ghost use Rattle.meta_schema.specs.Reading.{enums_of};
ghost use Rattle.meta_schema.specs.Seen.{value_seen};

use crate::component_type::ComponentType;
use crate::enumeration::{Enum, EnumValue};
use crate::error::{Field, SchemaError};
use crate::forms::{list_of, object_of, text_at, text_of};
use crate::members::NamedMembers;
use crate::whole_numbers::whole_in;
use json_decimal::Json;
use lists::List;
use std::alloc::Global;
use tile_types::Text;

/// The type of an enum's values.
fn value_type(value: Option<&Json>) -> Result<ComponentType, SchemaError>
    ensures { result ≡ spec.value_type (value_seen value.entry) }
{
    let Some(value) = value else {
        return Ok(ComponentType::Uint16);
    };
    let name = text_of(value, Field::ValueType)?;
    match ComponentType::named(name) {
        Some(component) => Ok(component),
        None => Err(SchemaError::Shape {
            field: Field::ValueType,
        }),
    }
}

fn read_value(
    alloc: Global,
    value: &Json,
    component: ComponentType,
) -> Result<EnumValue, SchemaError>
    ensures { Gives (λ v. v) result (spec.enum_value component (value_of value.now)) }
{
    let own = object_of(value, Field::Value)?;
    let name = text_at(own.last("name"), Field::Value)?;
    let value = whole_in(own.last("value"), component)?;
    Ok(EnumValue::new(Text::new(alloc, name)?, value))
}

fn each_value(
    alloc: Global,
    items: &[Json],
    component: ComponentType,
) -> Result<List<EnumValue>, SchemaError>
    ensures { Gives (λ values. values) result
        (each (spec.enum_value component) (map value_of items.now)) }
{
    let mut values = List::new(alloc);
    let mut rest = items;
    while let Some((first, behind)) = rest.split_first() {
        values.push(read_value(alloc, first, component)?)?;
        rest = behind;
    }
    Ok(values)
}

fn read_values(
    alloc: Global,
    value: Option<&Json>,
    component: ComponentType,
) -> Result<List<EnumValue>, SchemaError>
    ensures { Gives (λ values. values) result
        (spec.enum_values component (value_seen value.entry)) }
{
    let Some(value) = value else {
        return Err(SchemaError::Shape {
            field: Field::Values,
        });
    };
    each_value(alloc, list_of(value, Field::Values)?, component)
}

fn read_enum(alloc: Global, value: &Json) -> Result<Enum, SchemaError>
    ensures { Gives (λ e. e) result (spec.enumeration (value_of value.now)) }
{
    let own = object_of(value, Field::Enum)?;
    let component = value_type(own.last("valueType"))?;
    let values = read_values(alloc, own.last("values"), component)?;
    Ok(Enum::new(component, values))
}

/// The enums, in the order of their names.
pub fn read_enums(alloc: Global, members: &NamedMembers<'_>) -> Result<List<Enum>, SchemaError>
    ensures { Gives (λ enums. enums) result (enums_of members.now) }
{
    let mut enums = List::new(alloc);
    let mut rest = members.iter();
    while let Some((_, value)) = rest.next() {
        enums.push(read_enum(alloc, value)?)?;
    }
    Ok(enums)
}
