//! A schema that was read.

ghost use Rattle.std.specs.Prelude.{◌≡◌, ◌<◌, ◌↔◌, IfSome, IsSome, length, option_copied, option_map};
ghost use Rattle.json_decimal.specs.View.{value_of};
ghost use Rattle.meta_schema.specs.Causes.{Gives};
ghost use Rattle.meta_schema.specs.Kept.{IsClass, IsEnum, IsSchema};
ghost use Rattle.meta_schema.specs.Reading.{schema};
ghost use Rattle.meta_schema.specs.Schemas.{class_named, enum_numbered};

use crate::class::Class;
use crate::class_reading::read_classes;
use crate::enum_reading::read_enums;
use crate::enumeration::Enum;
use crate::error::{Field, SchemaError};
use crate::forms::object_of;
use crate::members::named_at;
use json_decimal::Json;
use lists::List;
use std::alloc::Global;
use std::marker::Model;

/// A metadata schema (OGC 22-025r4, "Metadata schema").
#[derive(Drop)]
pub struct Schema {
    enums: List<Enum>,
    classes: List<Class>,
}

impl Model for Schema {
    ghost use Rattle.meta_schema.specs.Schemas.{SchemaParts};

    ghost Value = { SchemaParts };

    ghost view = { λ s. record { enums = s.enums; classes = s.classes } };

    ghost use Rattle.meta_schema.specs.Kept.{IsSchema};

    ghost invariant = { λ s. IsSchema (record { enums = s.enums; classes = s.classes }) };
}

impl Schema {
    /// Reads a schema from the value of a document's `schema`. Of several causes the one that is met
    /// first is answered.
    ///
    /// A schema of 2^32 enums or more counts as want of memory.
    #[tactic(auto, unfolding(crate::specs::Reading::schema))]
    pub fn read(alloc: Global, json: &Json) -> Result<Schema, SchemaError>
        ensures value { Gives (λ s. s) result (schema (value_of json.now)) }
    {
        let own = object_of(json, Field::Top)?;
        let members = named_at(alloc, own.last("enums"), Field::Enums)?;
        let enums = read_enums(alloc, &members)?;
        let named = named_at(alloc, own.last("classes"), Field::Classes)?;
        let classes = read_classes(alloc, &named, &members)?;
        Ok(Schema { enums, classes })
    }

    /// The class of this name, or None exactly where there is none.
    pub fn class(&self, name: &str) -> Option<&Class>
        ensures value { option_map (λ c. c.now) result ≡ class_named name.now self.now.classes }
        ensures is { IfSome result (λ c. IsClass (length self.now.enums) c.now) }
    {
        let _ = &self.classes;
        first_named(self.classes.as_slice(), name)
    }

    /// The enum of this number, or None exactly where there are no more enums.
    pub fn enum_at(&self, number: u32) -> Option<&Enum>
        ensures value { option_map (λ e. e.now) result ≡ enum_numbered number self.now.enums }
        ensures within { IsSome result ↔ (number < length self.now.enums) }
        ensures is { IfSome result (λ e. IsEnum e.now) }
    {
        self.enums.get(number as usize)
    }

    /// What is so of every schema: properties name enums that are there, enums have values of their
    /// types, and classes have names of their own, as the properties of a class have.
    pub fn is_kept(&self)
        ensures { IsSchema self.now }
    {
        let _ = &self.classes;
    }
}

/// The class of this name.
fn first_named<'a>(classes: &'a [Class], name: &str) -> Option<&'a Class>
    ensures { option_map (λ c. c.now) result ≡ class_named name.now classes.now }
{
    classes.iter().find(|c| c.name().as_str() == name)
}
