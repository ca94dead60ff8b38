//! Whole numbers from 0 to 2^63 - 1.

ghost use Rattle.std.specs.Prelude.{◌≡◌};
ghost use Rattle.json_decimal.specs.Handles.{json_of};
ghost use Rattle.subtree_binary.specs.Chunks as chunks;
ghost use Rattle.subtree_binary.specs.Seen.{value_seen};

use crate::error::{SubtreeError, SubtreeField};
use json_decimal::{JsonRef, Whole, whole_of};

/// The value of a number, if it is one of these.
pub fn natural(value: JsonRef<'_>) -> Option<u64>
    ensures { result ≡ chunks.natural (json_of value.entry) }
{
    match whole_of(value.number()?)? {
        Whole::Is(n) if 0 <= n => Some(n as u64),
        _ => None,
    }
}

/// The value of a number, which has to be one of these.
pub fn natural_of(value: JsonRef<'_>, field: SubtreeField) -> Result<u64, SubtreeError>
    ensures { result ≡ chunks.natural_of field (json_of value.entry) }
{
    match natural(value) {
        Some(n) => Ok(n),
        None => Err(SubtreeError::Shape { field }),
    }
}

/// That of a member, which has to be there.
pub fn natural_at(value: Option<JsonRef<'_>>, field: SubtreeField) -> Result<u64, SubtreeError>
    ensures { result ≡ chunks.natural_at field (value_seen value.entry) }
{
    match value {
        Some(value) => natural_of(value, field),
        None => Err(SubtreeError::Shape { field }),
    }
}
