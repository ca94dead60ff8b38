//! Reading a document.

ghost use Rattle.std.specs.Prelude.{◌≡◌, IfOk};
ghost use Rattle.json_decimal.specs.Reading.{value_in};
ghost use Rattle.tileset_schema.specs.Causes.{Gives, or_cause};
ghost use Rattle.tileset_schema.specs.Documents.{document, schema};
ghost use Rattle.tileset_schema.specs.Preorder.{rows_read};
ghost use Rattle.tileset_schema.specs.declared.error.DocumentError.TheVariants.{NotJson};

use crate::document::Document;
use crate::error::DocumentError;
use crate::tiles::read_tile;
use crate::top::{root_of, schema_of, top_members};
use json_decimal::{JsonError, JsonText};
use std::alloc::Global;
use tile_uri::Base;

/// The JSON text of a document. One that is longer than a JSON text may be counts as want of
/// memory.
fn read_text(alloc: Global, bytes: &[u8]) -> Result<JsonText<'_>, DocumentError>
    ensures { Gives (λ text. text) result (or_cause NotJson (value_in bytes.now)) }
{
    match JsonText::read(alloc, bytes) {
        Ok(text) => Ok(text),
        Err(JsonError::NotJson) => Err(DocumentError::NotJson),
        Err(JsonError::TooLong) => Err(DocumentError::OutOfMemory),
        Err(JsonError::OutOfMemory) => Err(DocumentError::OutOfMemory),
    }
}

/// Reads the document that the bytes are at an address (OGC 22-025r4, "Tileset JSON"): its tiles,
/// in one pass, and its metadata schema; or the first cause why it isn't read. The tiles of
/// external tilesets aren't looked for.
///
/// Bytes past 2^32 - 1 count as want of memory.
#[tactic(auto, unfolding(crate::specs::Documents::document, crate::specs::Documents::schema))]
pub fn read(alloc: Global, bytes: &[u8], base: &Base) -> Result<Document, DocumentError>
    ensures tiles { Gives (λ d. d.rows) result (rows_read (document bytes.now base.now)) }
    ensures schema { IfOk result (λ d. d.schema ≡ schema bytes.now) }
{
    let text = read_text(alloc, bytes)?;
    let members = top_members(text.root())?;
    let root = root_of(members)?;
    let mut tiles = Vec::new(alloc);
    read_tile(alloc, base, root, &mut tiles)?;
    let schema = schema_of(alloc, members)?;
    Ok(Document::new(tiles, schema))
}
