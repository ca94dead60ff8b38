//! The geometric error of a tile (OGC 22-025r4, "Geometric error").

ghost use Rattle.std.specs.Prelude.{◌≡◌, ◌≤◌, IfOk};
ghost use Rattle.json_decimal.specs.Handles.{json_of};
ghost use Rattle.volumes.specs.Limits.{error_limit};
ghost use Rattle.tileset_schema.specs.Parts as parts;
ghost use Rattle.tileset_schema.specs.Seen.{value_seen};

use crate::error::DocumentError;
use crate::field::Field;
use fixed_geometry::{ERROR_LIMIT, scaled_clamped};
use json_decimal::JsonRef;

/// An error in micrometres, clamped to the limit of errors.
fn error_of(value: JsonRef<'_>, tile: u32) -> Result<u64, DocumentError>
    ensures value { result ≡ parts.error_of tile (json_of value.entry) }
    ensures within { IfOk result (λ n. n ≤ error_limit) }
{
    let field = Field::GeometricError;
    let Some(spelling) = value.number() else {
        return Err(DocumentError::Shape { field, tile });
    };
    let error = scaled_clamped(spelling, 6, ERROR_LIMIT as i128);
    if error < 0 {
        return Err(DocumentError::OutOfRange { field, tile });
    }
    Ok(error as u64)
}

/// The geometric error of an object, in micrometres.
pub fn geometric_error(value: Option<JsonRef<'_>>, tile: u32) -> Result<u64, DocumentError>
    ensures value { result ≡ parts.geometric_error tile (value_seen value.entry) }
    ensures within { IfOk result (λ n. n ≤ error_limit) }
{
    match value {
        Some(value) => error_of(value, tile),
        None => Err(DocumentError::MissingField {
            field: Field::GeometricError,
            tile,
        }),
    }
}
