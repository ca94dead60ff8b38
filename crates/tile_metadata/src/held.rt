//! The schema of one document.

ghost use Rattle.std.specs.Prelude.{IfOk, option_map};
ghost use Rattle.json_decimal.specs.View.{value_of};
ghost use Rattle.tile_metadata.specs.Kept.{IsHeld};

use json_decimal::Json;
use meta_schema::{Schema, SchemaError};
use std::alloc::{AllocError, Global};

/// What is read of the schema of a document (OGC 22-025r4, "Metadata schema").
#[derive(Drop)]
pub(crate) enum Held {
    /// The document isn't a tileset that is read.
    Unread,
    /// It has no schema.
    Without,
    Read { schema: Schema },
    Refused { cause: SchemaError },
}

/// Reads the schema of a document that is read, if it has one.
pub(crate) fn read_schema(alloc: Global, json: Option<&Json>) -> Result<Held, AllocError>
    ensures { IfOk result (IsHeld (option_map (λ j. value_of j.now) json.entry)) }
{
    let Some(json) = json else {
        return Ok(Held::Without);
    };
    match Schema::read(alloc, json) {
        Ok(schema) => Ok(Held::Read { schema }),
        Err(SchemaError::OutOfMemory) => Err(AllocError),
        Err(cause) => Ok(Held::Refused { cause }),
    }
}
