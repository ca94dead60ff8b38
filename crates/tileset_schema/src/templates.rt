//! The templates of an implicit root (OGC 22-025r4, "Template URIs").

ghost use Rattle.std.specs.Prelude.{◌≡◌, [], ◌∷◌};
ghost use Rattle.json_decimal.specs.Handles.{json_of, text_in, items_left};
ghost use Rattle.tileset_schema.specs.Causes.{Gives, each};
ghost use Rattle.tileset_schema.specs.ContentSeen.{values_in};
ghost use Rattle.tileset_schema.specs.Implicit as implicit;
ghost use Rattle.tileset_schema.specs.Uris.{content_template};

use crate::content_values::{ContentValues, uri_of};
use crate::error::DocumentError;
use json_decimal::{JsonItems, JsonRef, JsonString};
use std::alloc::Global;
use tile_uri::{Template, UriError};

/// The template of a text, which may use `{z}` in an octree alone.
fn read_template(
    alloc: Global,
    text: &str,
    octree: bool,
    tile: u32,
) -> Result<Template, DocumentError>
    ensures { Gives (λ t. t) result (implicit.template octree tile text.now) }
{
    match Template::read(alloc, text, octree) {
        Ok(template) => Ok(template),
        Err(UriError::OutOfMemory) => Err(DocumentError::OutOfMemory),
        Err(UriError::NotAnAddress) => Err(DocumentError::BadAddress { tile }),
        Err(UriError::Placeholder) => Err(DocumentError::BadAddress { tile }),
        Err(UriError::TooLong) => Err(DocumentError::BadAddress { tile }),
    }
}

/// The same of a string, which takes memory of its own where it has escapes.
pub fn template_of(
    alloc: Global,
    uri: JsonString<'_>,
    octree: bool,
    tile: u32,
) -> Result<Template, DocumentError>
    ensures { Gives (λ t. t) result (implicit.template octree tile (text_in uri.entry)) }
{
    match uri {
        JsonString::Plain(uri) => read_template(alloc, uri, octree, tile),
        escaped => {
            let uri = escaped.to_text(alloc)?;
            read_template(alloc, uri.as_str(), octree, tile)
        }
    }
}

/// The template of a content.
fn content_template(
    alloc: Global,
    value: JsonRef<'_>,
    octree: bool,
    tile: u32,
) -> Result<Template, DocumentError>
    ensures { Gives (λ t. t) result (content_template octree tile (json_of value.entry)) }
{
    let uri = uri_of(value, tile)?;
    template_of(alloc, uri, octree, tile)
}

/// The template of the only content.
fn one_template(
    alloc: Global,
    value: JsonRef<'_>,
    octree: bool,
    tile: u32,
) -> Result<Vec<Template>, DocumentError>
    ensures { Gives (λ ts. ts.items) result
        (each (content_template octree tile) (json_of value.entry ∷ [])) }
{
    let mut templates = Vec::new(alloc);
    templates.push(content_template(alloc, value, octree, tile)?)?;
    Ok(templates)
}

/// The templates of contents, in order.
fn each_template(
    alloc: Global,
    items: JsonItems<'_>,
    octree: bool,
    tile: u32,
) -> Result<Vec<Template>, DocumentError>
    ensures { Gives (λ ts. ts.items) result
        (each (content_template octree tile) (items_left items.entry)) }
{
    let mut templates = Vec::new(alloc);
    let mut rest = items;
    while let Some(value) = rest.next() {
        templates.push(content_template(alloc, value, octree, tile)?)?;
    }
    Ok(templates)
}

/// The templates of the contents of a tile.
pub fn content_templates(
    alloc: Global,
    values: ContentValues<'_>,
    octree: bool,
    tile: u32,
) -> Result<Vec<Template>, DocumentError>
    ensures { Gives (λ ts. ts.items) result
        (each (content_template octree tile) (values_in values.entry)) }
{
    match values {
        ContentValues::Absent => Ok(Vec::new(alloc)),
        ContentValues::One(value) => one_template(alloc, value, octree, tile),
        ContentValues::Listed(items) => each_template(alloc, items, octree, tile),
    }
}
