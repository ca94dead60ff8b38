//! How a tile is refined (OGC 22-025r4, "Refinement").

ghost use Rattle.std.specs.Prelude.{◌≡◌};
ghost use Rattle.std.specs.Str.{str_to_ascii_lowercase};
ghost use Rattle.json_decimal.specs.Handles.{json_of, text_in};
ghost use Rattle.json_decimal.specs.Parts.{text_of};
ghost use Rattle.tileset_schema.specs.Causes.{Gives, or_cause, seen_by};
ghost use Rattle.tileset_schema.specs.Parts as parts;
ghost use Rattle.tileset_schema.specs.Seen.{value_seen};
ghost use Rattle.tileset_schema.specs.declared.error.DocumentError.TheVariants.{RefineWord, Shape};

use crate::error::DocumentError;
use crate::field::Field;
use json_decimal::{JsonRef, JsonString};
use std::alloc::Global;
use tile_types::Refine;

/// The string of the refinement.
fn refine_string(value: JsonRef<'_>, tile: u32) -> Result<JsonString<'_>, DocumentError>
    ensures { seen_by text_in result
        ≡ or_cause (Shape Field.Refine tile) (text_of (json_of value.entry)) }
{
    match value.text() {
        Some(word) => Ok(word),
        None => Err(DocumentError::Shape {
            field: Field::Refine,
            tile,
        }),
    }
}

/// ADD or REPLACE, in letters of either case.
fn refine_word(word: &str, tile: u32) -> Result<Refine, DocumentError>
    ensures { result ≡ or_cause (RefineWord tile)
        (parts.refinement_word (str_to_ascii_lowercase word.now)) }
{
    if word.eq_ignore_ascii_case("add") {
        return Ok(Refine::Add);
    }
    if word.eq_ignore_ascii_case("replace") {
        return Ok(Refine::Replace);
    }
    Err(DocumentError::RefineWord { tile })
}

/// The refinement that a value names. It takes memory only where the string has escapes.
fn refinement_of(alloc: Global, value: JsonRef<'_>, tile: u32) -> Result<Refine, DocumentError>
    ensures { Gives (λ r. r) result (parts.refinement_of tile (json_of value.entry)) }
{
    match refine_string(value, tile)? {
        JsonString::Plain(word) => refine_word(word, tile),
        escaped => {
            let word = escaped.to_text(alloc)?;
            refine_word(word.as_str(), tile)
        }
    }
}

/// The refinement of a tile, where it names one.
pub fn own_refinement(
    alloc: Global,
    value: Option<JsonRef<'_>>,
    tile: u32,
) -> Result<Option<Refine>, DocumentError>
    ensures { Gives (λ r. r) result (parts.own_refinement tile (value_seen value.entry)) }
{
    match value {
        None => Ok(None),
        Some(value) => Ok(Some(refinement_of(alloc, value, tile)?)),
    }
}
