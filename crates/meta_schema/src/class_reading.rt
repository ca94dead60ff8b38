//! Reading classes.

ghost use Rattle.std.specs.Prelude.{◌≡◌};
ghost use Rattle.json_decimal.specs.JsonValue.{pairs_of};
ghost use Rattle.json_decimal.specs.View.{value_of};
ghost use Rattle.meta_schema.specs.Causes.{Gives, each};
ghost use Rattle.meta_schema.specs.Classes as spec;
ghost use Rattle.meta_schema.specs.Members.{names};

use crate::class::Class;
use crate::error::{Field, SchemaError};
use crate::forms::object_of;
use crate::members::{NamedMembers, named_at};
use crate::property::Property;
use crate::property_kinds::property_kind;
use json_decimal::Json;
use lists::List;
use std::alloc::Global;
use tile_types::Text;

fn read_property(
    alloc: Global,
    name: &str,
    value: &Json,
    enums: &NamedMembers<'_>,
) -> Result<Property, SchemaError>
    ensures { Gives (λ p. p) result
        (spec.property (names enums.now) (name.now, value_of value.now)) }
{
    let own = object_of(value, Field::Property)?;
    let kind = property_kind(own, enums)?;
    Ok(Property::new(Text::new(alloc, name)?, kind))
}

fn each_property(
    alloc: Global,
    members: &NamedMembers<'_>,
    enums: &NamedMembers<'_>,
) -> Result<List<Property>, SchemaError>
    ensures { Gives (λ ps. ps) result (each (spec.property (names enums.now)) members.now) }
{
    let mut properties = List::new(alloc);
    let mut rest = members.iter();
    while let Some((name, value)) = rest.next() {
        properties.push(read_property(alloc, name, value, enums)?)?;
    }
    Ok(properties)
}

fn read_class(
    alloc: Global,
    name: &str,
    value: &Json,
    enums: &NamedMembers<'_>,
) -> Result<Class, SchemaError>
    ensures { Gives (λ k. k) result
        (spec.class_of (names enums.now) (name.now, value_of value.now)) }
{
    let own = object_of(value, Field::Class)?;
    let members = named_at(alloc, own.last("properties"), Field::Properties)?;
    let properties = each_property(alloc, &members, enums)?;
    Ok(Class::new(Text::new(alloc, name)?, properties))
}

/// The classes, in the order of their names, where the enums are those of these members.
pub fn read_classes(
    alloc: Global,
    members: &NamedMembers<'_>,
    enums: &NamedMembers<'_>,
) -> Result<List<Class>, SchemaError>
    ensures { Gives (λ ks. ks) result (each (spec.class_of (names enums.now)) members.now) }
{
    let mut classes = List::new(alloc);
    let mut rest = members.iter();
    while let Some((name, value)) = rest.next() {
        classes.push(read_class(alloc, name, value, enums)?)?;
    }
    Ok(classes)
}
