//! The enums of a schema.

ghost use Rattle.std.specs.Prelude.{◌≡◌, option_map};
ghost use Rattle.meta_schema.specs.Schemas.{value_name};

use crate::component_type::ComponentType;
use lists::List;
use std::marker::Model;
use tile_types::Text;

/// A value of an enum, and its name (OGC 22-025r4, "Enum value").
#[derive(Drop)]
pub struct EnumValue {
    name: Text,
    value: i128,
}

impl Model for EnumValue {
    ghost use Rattle.meta_schema.specs.Schemas.{EnumValueParts};

    ghost Value = { EnumValueParts };

    ghost view = { λ v. record { name = v.name; value = v.value } };
}

impl EnumValue {
    pub(crate) fn new(name: Text, value: i128) -> EnumValue
        ensures { result ≡ record { name = name; value = value } }
    {
        EnumValue { name, value }
    }

    /// Its name.
    pub fn name(&self) -> &Text
        ensures { result.now ≡ self.now.name }
    {
        &self.name
    }

    /// The value.
    pub fn value(&self) -> i128
        ensures { result ≡ self.now.value }
    {
        self.value
    }
}

/// An enum (OGC 22-025r4, "Enum").
#[derive(Drop)]
pub struct Enum {
    component: ComponentType,
    values: List<EnumValue>,
}

impl Model for Enum {
    ghost use Rattle.meta_schema.specs.Schemas.{EnumParts};

    ghost Value = { EnumParts };

    ghost view = { λ e. record { component = e.component; values = e.values } };
}

impl Enum {
    pub(crate) fn new(component: ComponentType, values: List<EnumValue>) -> Enum
        ensures { result ≡ record { component = component; values = values } }
    {
        Enum { component, values }
    }

    /// The type of its values.
    pub fn component(&self) -> ComponentType
        ensures { result ≡ self.now.component }
    {
        self.component
    }

    /// The values, in written order.
    pub fn values(&self) -> &[EnumValue]
        ensures { result.now ≡ self.now.values }
    {
        self.values.as_slice()
    }

    /// The name of the first value that is this one, or None where there is none. It goes through
    /// the values.
    pub fn name_of(&self, value: i128) -> Option<&Text>
        ensures { option_map (λ name. name.now) result ≡ value_name value self.now.values }
    {
        first_name(self.values.as_slice(), value)
    }
}

/// The name of the first that has this value.
fn first_name(values: &[EnumValue], value: i128) -> Option<&Text>
    ensures { option_map (λ name. name.now) result ≡ value_name value values.now }
{
    values.iter().find(|v| v.value == value).map(|v| &v.name)
}
