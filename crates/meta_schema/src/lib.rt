//! Metadata schemas (OGC 22-025r4, "Metadata schema").
#![tactic(auto)]

mod class;
mod class_reading;
mod component_type;
mod enum_reading;
mod enumeration;
mod error;
mod forms;
mod members;
mod property;
mod property_kinds;
mod schema;
mod whole_numbers;

pub use class::Class;
pub use component_type::ComponentType;
pub use enumeration::{Enum, EnumValue};
pub use error::{Field, SchemaError};
pub use property::{Property, PropertyType};
pub use schema::Schema;

#[cfg(test)]
mod tests;
