//! What a tile says of itself (OGC 22-025r4, "Tiles"), step by step: the first cause counts.

ghost use Rattle.std.specs.Prelude.{◌≡◌, IfOk, IfSome, IsTrue};
ghost use Rattle.volumes.specs.Limits.{IsInRange};
ghost use Rattle.tileset_schema.specs.Added.{Pushes};
ghost use Rattle.tileset_schema.specs.ByValues.{are_common, parts_of};
ghost use Rattle.tileset_schema.specs.Parts as parts;
ghost use Rattle.tileset_schema.specs.Seen.{value_seen};
ghost use Rattle.tileset_schema.specs.ValuesSeen.{values_seen};

use crate::contents::{OwnContents, common_content, own_contents};
use crate::error::DocumentError;
use crate::field::Field;
use crate::geometric_errors::geometric_error;
use crate::refinement::own_refinement;
use crate::rest::{Marks, Rest};
use crate::tile_values::TileValues;
use crate::transform::own_transform;
use crate::volume::volume_of;
use crate::written::Written;
use json_decimal::JsonRef;
use std::alloc::Global;
use tile_uri::Base;
use volumes::Volume;

fn bounding_volume(value: Option<JsonRef<'_>>, tile: u32) -> Result<Volume, DocumentError>
    ensures value { result ≡ parts.bounding_volume tile (value_seen value.entry) }
    ensures within { IfOk result IsInRange }
{
    let field = Field::BoundingVolume;
    match value {
        Some(value) => volume_of(value, field, tile),
        None => Err(DocumentError::MissingField { field, tile }),
    }
}

fn request_volume(value: Option<JsonRef<'_>>, tile: u32) -> Result<Option<Volume>, DocumentError>
    ensures value { result ≡ parts.request_volume tile (value_seen value.entry) }
    ensures within { IfOk result (λ v. IfSome v IsInRange) }
{
    match value {
        None => Ok(None),
        Some(value) => Ok(Some(volume_of(value, Field::ViewerRequestVolume, tile)?)),
    }
}

/// Adds a tile that says nothing rare, as most do.
fn push_common(
    alloc: Global,
    base: &Base,
    own: &TileValues<'_>,
    tile: u32,
    tiles: &mut Vec<Written>,
) -> Result<(), DocumentError>
    requires { IsTrue (are_common (values_seen own.now)) }
    ensures { Pushes tiles.old.items tiles.new.items result
        (parts_of base.now tile (values_seen own.now)) }
{
    let volume = bounding_volume(own.bounding_volume, tile)?;
    let error = geometric_error(own.geometric_error, tile)?;
    let refine = own_refinement(alloc, own.refine, tile)?;
    let first = common_content(alloc, base, own.content, tile)?;
    let marks = Marks {
        refine,
        content: first.kind,
    };
    let rest = Rest::common(alloc, marks, volume)?;
    tiles.push(Written::new(error, first, rest))?;
    Ok(())
}

/// Adds any tile.
#[inline(never)]
fn push_rare(
    alloc: Global,
    base: &Base,
    own: &TileValues<'_>,
    tile: u32,
    tiles: &mut Vec<Written>,
) -> Result<(), DocumentError>
    ensures { Pushes tiles.old.items tiles.new.items result
        (parts_of base.now tile (values_seen own.now)) }
{
    let volume = bounding_volume(own.bounding_volume, tile)?;
    let request = request_volume(own.viewer_request_volume, tile)?;
    let error = geometric_error(own.geometric_error, tile)?;
    let refine = own_refinement(alloc, own.refine, tile)?;
    let transform = own_transform(own.transform, tile)?;
    let OwnContents {
        first,
        more,
        implicit,
    } = own_contents(
        alloc,
        base,
        &volume,
        own.content,
        own.contents,
        own.implicit_tiling,
        tile,
    )?;
    let marks = Marks {
        refine,
        content: first.kind,
    };
    let rest = Rest::new(alloc, marks, volume, request, transform, more, implicit)?;
    tiles.push(Written::new(error, first, rest))?;
    Ok(())
}

/// Adds the tile of this number behind the others, but none below it.
#[inline(always)]
pub fn push_tile(
    alloc: Global,
    base: &Base,
    own: &TileValues<'_>,
    tile: u32,
    tiles: &mut Vec<Written>,
) -> Result<(), DocumentError>
    ensures { Pushes tiles.old.items tiles.new.items result
        (parts_of base.now tile (values_seen own.now)) }
{
    if own.are_common() {
        return push_common(alloc, base, own, tile, tiles);
    }
    push_rare(alloc, base, own, tile, tiles)
}
