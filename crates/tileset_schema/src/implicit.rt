//! Implicit tiling as a tile writes it (OGC 22-025r4, "Implicit Tiling").

ghost use Rattle.std.specs.Prelude.{◌≡◌, ◌<◌, ◌^◌, length, IfOk, OnOk};
ghost use Rattle.json_decimal.specs.Handles.{json_of};
ghost use Rattle.volumes.specs.Limits.{IsBox};
ghost use Rattle.tileset_schema.specs.Causes.{Gives};
ghost use Rattle.tileset_schema.specs.ContentSeen.{values_in};
ghost use Rattle.tileset_schema.specs.Implicit as implicit;
ghost use Rattle.tileset_schema.specs.Implicit.{HasLevels};
ghost use Rattle.tileset_schema.specs.Parts as parts;
ghost use Rattle.tileset_schema.specs.Seen.{value_seen};
ghost use Rattle.tileset_schema.specs.Tilings.{subdivision_in, tiling_of};

use crate::content_values::{ContentValues, check_contents, content_values};
use crate::error::DocumentError;
use crate::implicit_part::ImplicitPart;
use crate::subdivision::{OwnSubdivision, subdivision_of};
use crate::templates::content_templates;
use json_decimal::JsonRef;
use std::alloc::Global;
use tile_uri::Template;
use volumes::Volume;

/// A sphere isn't divided into cells.
fn check_box(volume: &Volume, tile: u32) -> Result<(), DocumentError>
    ensures value { result ≡ implicit.box_only tile volume.now }
    ensures boxed { OnOk result (IsBox volume.now) }
{
    match volume {
        Volume::Oriented { .. } => Ok(()),
        Volume::Ball { .. } => Err(DocumentError::ImplicitSphere { tile }),
    }
}

/// The implicit part with these templates of contents. As many of them as no text holds count as
/// want of memory.
fn with_contents(
    own: OwnSubdivision,
    contents: Vec<Template>,
) -> Result<ImplicitPart, DocumentError>
    requires { HasLevels own.octree own.subtree_levels own.available_levels }
    ensures { Gives (λ part. part) result
        (Ok (implicit.with_contents (subdivision_in own) contents.items)) }
{
    if contents.len() > u32::MAX as usize {
        return Err(DocumentError::OutOfMemory);
    }
    Ok(ImplicitPart::new(
        own.octree,
        own.subtree_levels,
        own.available_levels,
        own.subtrees,
        contents,
    ))
}

/// What the value of `implicitTiling` says of a tile of this volume with these contents.
fn tiling_of(
    alloc: Global,
    volume: &Volume,
    contents: ContentValues<'_>,
    value: JsonRef<'_>,
    tile: u32,
) -> Result<ImplicitPart, DocumentError>
    ensures value { Gives (λ part. part) result
        (tiling_of tile volume.now (values_in contents.entry) (json_of value.entry)) }
    ensures boxed { OnOk result (IsBox volume.now) }
{
    let own = subdivision_of(alloc, value, tile)?;
    let contents = content_templates(alloc, contents, own.octree, tile)?;
    check_box(volume, tile)?;
    with_contents(own, contents)
}

/// What a tile of this volume says in place of its contents, by the values of `content`, `contents`
/// and `implicitTiling`. It is a call of its own, since few tiles have such a value.
#[inline(never)]
pub fn implicit_contents(
    alloc: Global,
    volume: &Volume,
    content: Option<JsonRef<'_>>,
    contents: Option<JsonRef<'_>>,
    tiling: JsonRef<'_>,
    tile: u32,
) -> Result<ImplicitPart, DocumentError>
    ensures value { Gives (λ part. part) result (parts.implicit_contents tile volume.now
        (value_seen content.entry) (value_seen contents.entry) (json_of tiling.entry)) }
    ensures boxed { OnOk result (IsBox volume.now) }
{
    let values = content_values(content, contents, tile)?;
    check_contents(values, tile)?;
    tiling_of(alloc, volume, values, tiling, tile)
}
