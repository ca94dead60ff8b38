//! The properties of a class.

ghost use Rattle.std.specs.Prelude.{◌≡◌};

use crate::component_type::ComponentType;
use std::marker::Model;
use tile_types::Text;

/// What the values of a property are (OGC 22-025r4, "Property").
#[derive(Clone, Copy, Debug)]
pub enum PropertyType {
    /// SCALAR of a type of whole numbers.
    Whole { component: ComponentType },
    /// BOOLEAN.
    Boolean,
    /// STRING.
    Words,
    /// ENUM; the number of the enum in the schema, from 0.
    Enum { number: u32 },
    /// Any other, which isn't read.
    Skipped,
}

/// A property of a class (OGC 22-025r4, "Property").
#[derive(Drop)]
pub struct Property {
    name: Text,
    kind: PropertyType,
}

impl Model for Property {
    ghost use Rattle.meta_schema.specs.Schemas.{PropertyParts};

    ghost Value = { PropertyParts };

    ghost view = { λ p. record { name = p.name; kind = p.kind } };
}

impl Property {
    pub(crate) fn new(name: Text, kind: PropertyType) -> Property
        ensures { result ≡ record { name = name; kind = kind } }
    {
        Property { name, kind }
    }

    /// Its name, which no other property of the class has.
    #[inline]
    pub fn name(&self) -> &Text
        ensures { result.now ≡ self.now.name }
    {
        &self.name
    }

    /// What its values are.
    #[inline]
    pub fn kind(&self) -> PropertyType
        ensures { result ≡ self.now.kind }
    {
        self.kind
    }
}
