//! Texts that are read flat.
ghost use Rattle.std.specs.Prelude.{◌≡◌, ◌<◌, ◌↔◌, length, IfOk, Err};
ghost use Rattle.json_decimal.specs.Grammar.{IsJson, max_length};
ghost use Rattle.json_decimal.specs.Handles.{json_of};
ghost use Rattle.json_decimal.specs.JsonValue.{JsonValue};
ghost use Rattle.json_decimal.specs.Reading.{value_in};
ghost use Rattle.json_decimal.specs.Scan.{Gives};
ghost use Rattle.json_decimal.specs.WellFormed.{IsWellFormed};

use crate::entries::entries_of;
use crate::entry::Entry;
use crate::error::JsonError;
use crate::json_ref::JsonRef;
use std::alloc::Global;
use std::marker::Model;

/// A JSON text that was read (RFC 8259), which contracts see as its value. It stands over its
/// bytes, which the caller keeps, and holds eight bytes for each value and each name of a member.
#[derive(Debug, Drop)]
pub struct JsonText<'a> {
    bytes: &'a [u8],
    entries: Vec<Entry>,
}

impl<'a> Model for JsonText<'a> {
    ghost use Rattle.json_decimal.specs.JsonValue.{JsonValue};
    ghost use Rattle.json_decimal.specs.Code.{coded_value};

    ghost Value = { JsonValue };

    ghost coded = { coded_value };

    ghost use Rattle.json_decimal.specs.Entries.{value_on, AreTextEntries};

    ghost view = { λ text. value_on text.bytes.now text.entries.items };

    ghost invariant = { λ text. AreTextEntries text.bytes.now text.entries.items };
}

impl<'a> JsonText<'a> {
    /// Reads a JSON text, which may nest 256 deep, may have 2^32 - 1 bytes and may begin with a
    /// byte-order mark. It takes memory for the entries alone.
    pub fn read(alloc: Global, bytes: &'a [u8]) -> Result<JsonText<'a>, JsonError>
        // It is the value that the bytes spell.
        ensures value { IfOk result (λ text. IsJson bytes.now text) }
        // Each text and each name in it is UTF-8, and each number is spelled as one.
        ensures well_formed { IfOk result (λ text. IsWellFormed text) }
        // It is no JSON text only where the bytes spell no value.
        ensures refused { result ≡ Err JsonError.NotJson
            → (v : JsonValue) → IsJson bytes.now v → ⊥ }
        // It is too long exactly where it has more bytes than it may have, whatever memory there
        // is.
        ensures too_long { (result ≡ Err JsonError.TooLong) ↔ (max_length < length bytes.now) }
        // Which value it is, and whether there is one, as a function.
        ensures exact { Gives (λ text. text) result (value_in bytes.now) }
    {
        let entries = entries_of(alloc, bytes)?;
        Ok(JsonText { bytes, entries })
    }

    /// The value.
    pub fn root(&self) -> JsonRef<'_>
        ensures { json_of result ≡ self.now }
    {
        JsonRef {
            bytes: self.bytes,
            entries: self.entries.as_slice(),
        }
    }
}
