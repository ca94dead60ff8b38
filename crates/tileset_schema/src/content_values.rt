//! The values of the contents of a tile, and their uris (OGC 22-025r4, "Tile content").

ghost use Rattle.std.specs.Prelude.{◌≡◌};
ghost use Rattle.json_decimal.specs.Handles.{json_of, text_in, items_left};
ghost use Rattle.tileset_schema.specs.Causes.{each, seen_by};
ghost use Rattle.tileset_schema.specs.ContentSeen.{values_in};
ghost use Rattle.tileset_schema.specs.Parts as parts;
ghost use Rattle.tileset_schema.specs.Seen.{value_seen};
ghost use Rattle.tileset_schema.specs.Uris.{done, uris};
ghost use Rattle.tileset_schema.specs.declared.error.DocumentError.TheVariants.{Shape};

use crate::error::DocumentError;
use crate::field::Field;
use crate::members::last;
use json_decimal::{JsonItems, JsonRef, JsonString};

/// The values of the contents of a tile.
#[derive(Clone, Copy)]
pub enum ContentValues<'a> {
    Absent,
    /// That of `content`.
    One(JsonRef<'a>),
    /// Those of `contents`.
    Listed(JsonItems<'a>),
}

/// A part of the contents has another form than it has to have.
fn shape(tile: u32) -> DocumentError
    ensures { result ≡ Shape Field.Content tile }
{
    DocumentError::Shape {
        field: Field::Content,
        tile,
    }
}

/// The values of the contents of a tile, by those of `content` and `contents`.
pub fn content_values<'a>(
    content: Option<JsonRef<'a>>,
    contents: Option<JsonRef<'a>>,
    tile: u32,
) -> Result<ContentValues<'a>, DocumentError>
    ensures { seen_by values_in result
        ≡ parts.content_values tile (value_seen content.entry) (value_seen contents.entry) }
{
    match (content, contents) {
        (None, None) => Ok(ContentValues::Absent),
        (Some(value), None) => Ok(ContentValues::One(value)),
        (Some(_), Some(_)) => Err(DocumentError::BothContents { tile }),
        (None, Some(list)) => match list.items() {
            Some(items) => Ok(ContentValues::Listed(items)),
            None => Err(shape(tile)),
        },
    }
}

/// The string of the uri of a content.
pub fn uri_of(value: JsonRef<'_>, tile: u32) -> Result<JsonString<'_>, DocumentError>
    ensures { seen_by text_in result ≡ parts.uri_of tile (json_of value.entry) }
{
    let field = Field::Uri;
    let Some(members) = value.members() else {
        return Err(shape(tile));
    };
    let Some(uri) = last(members, "uri") else {
        return Err(DocumentError::MissingField { field, tile });
    };
    match uri.text() {
        Some(uri) => Ok(uri),
        None => Err(DocumentError::Shape { field, tile }),
    }
}

/// Each content is an object, before any is looked into.
fn check_objects(items: JsonItems<'_>, tile: u32) -> Result<(), DocumentError>
    ensures { result ≡ done (parts.objects tile (items_left items.entry)) }
{
    let mut rest = items;
    while let Some(value) = rest.next() {
        if value.members().is_none() {
            return Err(shape(tile));
        }
    }
    Ok(())
}

/// Each content has a uri, before any is read further.
fn check_uris(items: JsonItems<'_>, tile: u32) -> Result<(), DocumentError>
    ensures { result ≡ done (each (parts.uri_of tile) (items_left items.entry)) }
{
    let mut rest = items;
    while let Some(value) = rest.next() {
        uri_of(value, tile)?;
    }
    Ok(())
}

/// Each content of a list is an object, and has a uri.
pub fn check_list(items: JsonItems<'_>, tile: u32) -> Result<(), DocumentError>
    ensures { result ≡ done (uris tile (items_left items.entry)) }
{
    check_objects(items, tile)?;
    check_uris(items, tile)
}

/// Each content is an object, and has a uri.
pub fn check_contents(values: ContentValues<'_>, tile: u32) -> Result<(), DocumentError>
    ensures { result ≡ done (uris tile (values_in values.entry)) }
{
    match values {
        ContentValues::Absent => Ok(()),
        ContentValues::One(value) => match uri_of(value, tile) {
            Ok(_) => Ok(()),
            Err(cause) => Err(cause),
        },
        ContentValues::Listed(items) => check_list(items, tile),
    }
}
