//! Reading a JSON text into a value of its own.
ghost use Rattle.std.specs.Prelude.{◌≡◌, ◌<◌, IfOk, List, ℕ, ◌↔◌, Some, Err, length};
ghost use Rattle.json_decimal.specs.Grammar.{IsJson, max_length};
ghost use Rattle.json_decimal.specs.JsonValue.{JsonValue};
ghost use Rattle.json_decimal.specs.Reading.{value_in};
ghost use Rattle.json_decimal.specs.Scan.{Gives};
ghost use Rattle.json_decimal.specs.View.{value_of};
ghost use Rattle.json_decimal.specs.WellFormed.{IsWellFormed};

use crate::entries::entries_of;
use crate::error::JsonError;
use crate::json::Json;
use crate::json_ref::JsonRef;
use std::alloc::Global;

/// A JSON text is read into entries first, and what these stand for is then built.
fn read(alloc: Global, bytes: &[u8]) -> Result<Json, JsonError>
    ensures exact { Gives value_of result (value_in bytes.now) }
    ensures too_long { (result ≡ Err JsonError.TooLong) ↔ (max_length < length bytes.now) }
{
    let entries = entries_of(alloc, bytes)?;
    let root = JsonRef {
        bytes,
        entries: entries.as_slice(),
    };
    Ok(root.to_json(alloc)?)
}

/// The value of a JSON text (RFC 8259), which may nest 256 deep, may have 2^32 - 1 bytes and may
/// begin with a byte-order mark.
pub fn parse(alloc: Global, bytes: &[u8]) -> Result<Json, JsonError>
    // It is the value that the bytes spell.
    ensures value { IfOk result (λ json. IsJson bytes.now (value_of json)) }
    // Each text and each name in it is UTF-8, and each number is spelled as one.
    ensures well_formed { IfOk result (λ json. IsWellFormed (value_of json)) }
    // It is no JSON text only where the bytes spell no value.
    ensures refused { result ≡ Err JsonError.NotJson → (v : JsonValue) → IsJson bytes.now v → ⊥ }
    // It is too long exactly where it has more bytes than it may have, whatever memory there is.
    ensures too_long { (result ≡ Err JsonError.TooLong) ↔ (max_length < length bytes.now) }
    // Which value it is, and whether there is one, as a function.
    ensures exact { Gives value_of result (value_in bytes.now) }
{
    read(alloc, bytes)
}

/// Bytes spell one value at most.
pub fn one_value()
    ensures { (bytes : List ℕ) (v w : JsonValue) → IsJson bytes v → IsJson bytes w → v ≡ w }
{}

/// The value that `value_in` gives is the one that the bytes spell.
pub fn value_is_spelled()
    ensures { (bytes : List ℕ) (v : JsonValue) → (value_in bytes ≡ Some v) ↔ IsJson bytes v }
{}
