//! The contents of a tile (OGC 22-025r4, "Tile content").

ghost use Rattle.std.specs.Prelude.{◌≡◌, None, [], ◌∷◌, IfOk, IfSome};
ghost use Rattle.json_decimal.specs.Handles.{json_of, text_in, items_left};
ghost use Rattle.volumes.specs.Limits.{IsBox};
ghost use Rattle.tileset_schema.specs.Causes.{Gives, each};
ghost use Rattle.tileset_schema.specs.ContentSeen.{values_in};
ghost use Rattle.tileset_schema.specs.FirstSeen.{addresses_in, contents_in, first_in};
ghost use Rattle.tileset_schema.specs.Firsts.{IsFirst};
ghost use Rattle.tileset_schema.specs.Parts as parts;
ghost use Rattle.tileset_schema.specs.Seen.{value_seen};
ghost use Rattle.tileset_schema.specs.Uris.{addresses_by, content_address};

use crate::content_values::{ContentValues, check_list, content_values, uri_of};
use crate::error::DocumentError;
use crate::first_content::FirstContent;
use crate::implicit::implicit_contents;
use crate::implicit_part::ImplicitPart;
use json_decimal::{JsonItems, JsonRef, JsonString};
use std::alloc::Global;
use tile_uri::{Address, Base, UriError};
use volumes::Volume;

/// The contents of a tile, or what an implicit root says in their place.
#[derive(Drop)]
pub struct OwnContents {
    pub first: FirstContent,
    /// Those behind the first.
    pub more: Vec<Address>,
    pub implicit: Option<Box<ImplicitPart>>,
}

/// The address that a uri names below that of the document.
fn resolve(alloc: Global, base: &Base, uri: &str, tile: u32) -> Result<Address, DocumentError>
    ensures { Gives (λ a. a) result (parts.address_of base.now tile uri.now) }
{
    match base.resolve(alloc, uri) {
        Ok(address) => Ok(address),
        Err(UriError::OutOfMemory) => Err(DocumentError::OutOfMemory),
        Err(UriError::NotAnAddress) => Err(DocumentError::BadAddress { tile }),
        Err(UriError::Placeholder) => Err(DocumentError::BadAddress { tile }),
        Err(UriError::TooLong) => Err(DocumentError::BadAddress { tile }),
    }
}

/// The same of a string, which takes memory of its own where it has escapes.
fn address_of(
    alloc: Global,
    base: &Base,
    uri: JsonString<'_>,
    tile: u32,
) -> Result<Address, DocumentError>
    ensures { Gives (λ a. a) result (parts.address_of base.now tile (text_in uri.entry)) }
{
    match uri {
        JsonString::Plain(uri) => resolve(alloc, base, uri, tile),
        escaped => {
            let uri = escaped.to_text(alloc)?;
            resolve(alloc, base, uri.as_str(), tile)
        }
    }
}

/// The address of a content.
fn content_address(
    alloc: Global,
    base: &Base,
    value: JsonRef<'_>,
    tile: u32,
) -> Result<Address, DocumentError>
    ensures { Gives (λ a. a) result (content_address base.now tile (json_of value.entry)) }
{
    let uri = uri_of(value, tile)?;
    address_of(alloc, base, uri, tile)
}

/// The addresses of contents, in order.
fn each_address(
    alloc: Global,
    base: &Base,
    items: JsonItems<'_>,
    tile: u32,
) -> Result<Vec<Address>, DocumentError>
    ensures { Gives (λ addresses. addresses.items) result
        (each (content_address base.now tile) (items_left items.entry)) }
{
    let mut addresses = Vec::new(alloc);
    let mut rest = items;
    while let Some(value) = rest.next() {
        addresses.push(content_address(alloc, base, value, tile)?)?;
    }
    Ok(addresses)
}

/// The contents of a list of which each has a uri.
fn all_contents(
    alloc: Global,
    base: &Base,
    items: JsonItems<'_>,
    tile: u32,
) -> Result<OwnContents, DocumentError>
    ensures value { Gives addresses_in result
        (each (content_address base.now tile) (items_left items.entry)) }
    ensures is { IfOk result (λ own. IsFirst own.first.kind own.first.text) }
    ensures explicit { IfOk result (λ own. own.implicit ≡ None) }
{
    let mut rest = items;
    let Some(value) = rest.next() else {
        return Ok(OwnContents {
            first: FirstContent::absent(alloc)?,
            more: Vec::new(alloc),
            implicit: None,
        });
    };
    let first = content_address(alloc, base, value, tile)?;
    let more = each_address(alloc, base, rest, tile)?;
    Ok(OwnContents {
        first: FirstContent::of(first),
        more,
        implicit: None,
    })
}

/// The content of the member `content`.
fn one_content(
    alloc: Global,
    base: &Base,
    value: JsonRef<'_>,
    tile: u32,
) -> Result<FirstContent, DocumentError>
    ensures value { Gives first_in result
        (addresses_by base.now tile (json_of value.entry ∷ [])) }
    ensures is { IfOk result (λ first. IsFirst first.kind first.text) }
{
    let uri = uri_of(value, tile)?;
    let address = address_of(alloc, base, uri, tile)?;
    Ok(FirstContent::of(address))
}

/// The contents of a tile that has neither a member `contents` nor `implicitTiling`.
pub fn common_content(
    alloc: Global,
    base: &Base,
    content: Option<JsonRef<'_>>,
    tile: u32,
) -> Result<FirstContent, DocumentError>
    ensures value { Gives first_in result
        (parts.addresses base.now tile (value_seen content.entry) None) }
    ensures is { IfOk result (λ first. IsFirst first.kind first.text) }
{
    match content {
        Some(value) => one_content(alloc, base, value, tile),
        None => Ok(FirstContent::absent(alloc)?),
    }
}

/// The contents of a list.
fn listed_contents(
    alloc: Global,
    base: &Base,
    items: JsonItems<'_>,
    tile: u32,
) -> Result<OwnContents, DocumentError>
    ensures value { Gives addresses_in result
        (addresses_by base.now tile (items_left items.entry)) }
    ensures is { IfOk result (λ own. IsFirst own.first.kind own.first.text) }
    ensures explicit { IfOk result (λ own. own.implicit ≡ None) }
{
    check_list(items, tile)?;
    all_contents(alloc, base, items, tile)
}

/// The contents of these values.
fn contents_of(
    alloc: Global,
    base: &Base,
    values: ContentValues<'_>,
    tile: u32,
) -> Result<OwnContents, DocumentError>
    ensures value { Gives addresses_in result
        (addresses_by base.now tile (values_in values.entry)) }
    ensures is { IfOk result (λ own. IsFirst own.first.kind own.first.text) }
    ensures explicit { IfOk result (λ own. own.implicit ≡ None) }
{
    let first = match values {
        ContentValues::Absent => FirstContent::absent(alloc)?,
        ContentValues::One(value) => one_content(alloc, base, value, tile)?,
        ContentValues::Listed(items) => return listed_contents(alloc, base, items, tile),
    };
    Ok(OwnContents {
        first,
        more: Vec::new(alloc),
        implicit: None,
    })
}

/// The contents of a tile without `implicitTiling`.
fn explicit_contents(
    alloc: Global,
    base: &Base,
    content: Option<JsonRef<'_>>,
    contents: Option<JsonRef<'_>>,
    tile: u32,
) -> Result<OwnContents, DocumentError>
    ensures value { Gives addresses_in result
        (parts.addresses base.now tile (value_seen content.entry) (value_seen contents.entry)) }
    ensures is { IfOk result (λ own. IsFirst own.first.kind own.first.text) }
    ensures explicit { IfOk result (λ own. own.implicit ≡ None) }
{
    let values = content_values(content, contents, tile)?;
    contents_of(alloc, base, values, tile)
}

/// The contents of a tile of this volume, by the values of `content`, `contents` and
/// `implicitTiling`.
pub fn own_contents(
    alloc: Global,
    base: &Base,
    volume: &Volume,
    content: Option<JsonRef<'_>>,
    contents: Option<JsonRef<'_>>,
    implicit: Option<JsonRef<'_>>,
    tile: u32,
) -> Result<OwnContents, DocumentError>
    ensures value { Gives contents_in result (parts.contents base.now tile volume.now
        (value_seen content.entry) (value_seen contents.entry) (value_seen implicit.entry)) }
    ensures is { IfOk result (λ own. IsFirst own.first.kind own.first.text) }
    ensures boxed { IfOk result (λ own. IfSome own.implicit (λ part. IsBox volume.now)) }
{
    match implicit {
        None => explicit_contents(alloc, base, content, contents, tile),
        Some(tiling) => {
            let part = implicit_contents(alloc, volume, content, contents, tiling, tile)?;
            Ok(OwnContents {
                first: FirstContent::absent(alloc)?,
                more: Vec::new(alloc),
                implicit: Some(Box::new(alloc, part)?),
            })
        }
    }
}
