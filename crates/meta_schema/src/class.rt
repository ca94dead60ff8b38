//! The classes of a schema.

ghost use Rattle.std.specs.Prelude.{◌≡◌};

use crate::property::Property;
use lists::List;
use std::marker::Model;
use tile_types::Text;

/// A class (OGC 22-025r4, "Class").
#[derive(Drop)]
pub struct Class {
    name: Text,
    properties: List<Property>,
}

impl Model for Class {
    ghost use Rattle.meta_schema.specs.Schemas.{ClassParts};

    ghost Value = { ClassParts };

    ghost view = { λ c. record { name = c.name; properties = c.properties } };
}

impl Class {
    pub(crate) fn new(name: Text, properties: List<Property>) -> Class
        ensures { result ≡ record { name = name; properties = properties } }
    {
        Class { name, properties }
    }

    /// Its name, which no other class of the schema has.
    pub fn name(&self) -> &Text
        ensures { result.now ≡ self.now.name }
    {
        &self.name
    }

    /// Its properties, in written order.
    #[inline]
    pub fn properties(&self) -> &[Property]
        ensures { result.now ≡ self.now.properties }
    {
        self.properties.as_slice()
    }
}
