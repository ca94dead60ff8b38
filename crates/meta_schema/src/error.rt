//! Refusals.

ghost use Rattle.std.specs.Prelude.{◌≡◌};
ghost use Rattle.meta_schema.specs.declared.error.SchemaError.TheVariants.{OutOfMemory};

use std::alloc::{AllocError, AllocFailed};
use thiserror::Error;

/// The parts of a schema that a cause may speak of (OGC 22-025r4, "Metadata schema").
#[derive(Clone, Copy, Debug, PartialEq, Eq)]
pub enum Field {
    /// The schema itself.
    Top,
    /// `classes`.
    Classes,
    /// `enums`.
    Enums,
    /// One of the classes.
    Class,
    /// A class's `properties`.
    Properties,
    /// One of them.
    Property,
    /// A property's `type`.
    Type,
    /// A property's `componentType`.
    ComponentType,
    /// One of the enums.
    Enum,
    /// An enum's `values`.
    Values,
    /// One of them, its `name` or its `value`.
    Value,
    /// An enum's `valueType`.
    ValueType,
}

/// Why a schema isn't read. Of several causes the one that is met first is answered.
#[derive(Clone, Copy, Debug, PartialEq, Eq, Drop, Error)]
pub enum SchemaError {
    /// The part has another form than it has to have, or isn't there.
    #[error("a part of another form")]
    Shape { field: Field },
    /// A property's `enumType` isn't the name of an enum, or isn't there.
    #[error("a property of an unknown enum")]
    UnknownEnum,
    /// A value of an enum is outside the enum's type.
    #[error("an enum's value outside its type")]
    OutOfRange,
    /// Memory ran out.
    #[error("out of memory")]
    OutOfMemory,
}

impl From<AllocError> for SchemaError {
    ghost from_gives = { λ _ e. e ≡ OutOfMemory };

    fn from(_e: AllocError) -> SchemaError {
        SchemaError::OutOfMemory
    }
}

impl<T: Drop> From<AllocFailed<T>> for SchemaError {
    ghost from_gives = { λ _ e. e ≡ OutOfMemory };

    fn from(_e: AllocFailed<T>) -> SchemaError {
        SchemaError::OutOfMemory
    }
}
