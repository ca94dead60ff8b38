//! How an implicit root is divided (OGC 22-025r4, "Subdivision Schemes" and "Subtrees").

ghost use Rattle.std.specs.Prelude.{◌≡◌, ◌<◌, ◌≤◌, IfOk};
ghost use Rattle.json_decimal.specs.Handles.{json_of, text_in};
ghost use Rattle.tileset_schema.specs.Causes.{Gives, seen_by};
ghost use Rattle.tileset_schema.specs.Implicit as implicit;
ghost use Rattle.tileset_schema.specs.Implicit.{HasLevels};
ghost use Rattle.tileset_schema.specs.Seen.{value_seen};
ghost use Rattle.tileset_schema.specs.Tilings.{subdivision_in};

use crate::error::DocumentError;
use crate::field::Field;
use crate::limits::AVAILABLE_LEVELS;
use crate::members::last;
use crate::templates::template_of;
use avail_bits::{OCTREE_SUBTREE_LEVELS, QUADTREE_SUBTREE_LEVELS};
use json_decimal::{JsonRef, JsonString, Whole, whole_of};
use std::alloc::Global;
use tile_uri::Template;

/// All that the value of `implicitTiling` says.
#[derive(Drop)]
pub struct OwnSubdivision {
    pub octree: bool,
    pub subtree_levels: u8,
    pub available_levels: u8,
    pub subtrees: Template,
}

/// Whether the tiles are those of an octree.
fn scheme(value: Option<JsonRef<'_>>, tile: u32) -> Result<bool, DocumentError>
    ensures { result ≡ implicit.scheme tile (value_seen value.entry) }
{
    let field = Field::Scheme;
    let Some(value) = value else {
        return Err(DocumentError::MissingField { field, tile });
    };
    let Some(word) = value.text() else {
        return Err(DocumentError::Shape { field, tile });
    };
    if word.is("QUADTREE") {
        return Ok(false);
    }
    if word.is("OCTREE") {
        return Ok(true);
    }
    Err(DocumentError::Shape { field, tile })
}

/// The most levels of a subtree.
fn subtree_limit(octree: bool) -> u8
    ensures { result ≡ implicit.subtree_limit octree }
{
    if octree {
        OCTREE_SUBTREE_LEVELS
    } else {
        QUADTREE_SUBTREE_LEVELS
    }
}

/// The levels of the value of a member: a whole number from 1 to the most.
fn levels(
    value: Option<JsonRef<'_>>,
    most: u8,
    field: Field,
    tile: u32,
) -> Result<u8, DocumentError>
    ensures value { result ≡ implicit.levels most field tile (value_seen value.entry) }
    ensures from { IfOk result (λ n. 0 < n) }
    ensures to { IfOk result (λ n. n ≤ most) }
{
    let Some(value) = value else {
        return Err(DocumentError::MissingField { field, tile });
    };
    let Some(spelling) = value.number() else {
        return Err(DocumentError::Shape { field, tile });
    };
    match whole_of(spelling) {
        None => Err(DocumentError::Shape { field, tile }),
        Some(Whole::Is(n)) => {
            if 1 <= n && n <= most as i64 {
                return Ok(n as u8);
            }
            Err(DocumentError::ImplicitLimits { tile })
        }
        Some(Whole::Beyond) => Err(DocumentError::ImplicitLimits { tile }),
    }
}

/// The string of the uri of the subtrees.
fn subtree_uri(value: Option<JsonRef<'_>>, tile: u32) -> Result<JsonString<'_>, DocumentError>
    ensures { seen_by text_in result ≡ implicit.subtree_uri tile (value_seen value.entry) }
{
    let field = Field::Subtrees;
    let Some(value) = value else {
        return Err(DocumentError::MissingField { field, tile });
    };
    let Some(own) = value.members() else {
        return Err(DocumentError::Shape { field, tile });
    };
    let Some(uri) = last(own, "uri") else {
        return Err(DocumentError::Shape { field, tile });
    };
    match uri.text() {
        Some(uri) => Ok(uri),
        None => Err(DocumentError::Shape { field, tile }),
    }
}

/// How the value of `implicitTiling` divides a tile.
pub fn subdivision_of(
    alloc: Global,
    value: JsonRef<'_>,
    tile: u32,
) -> Result<OwnSubdivision, DocumentError>
    ensures value { Gives subdivision_in result (implicit.subdivision tile (json_of value.entry)) }
    ensures levels { IfOk result (λ own.
        HasLevels own.octree own.subtree_levels own.available_levels) }
{
    let Some(members) = value.members() else {
        return Err(DocumentError::Shape {
            field: Field::ImplicitTiling,
            tile,
        });
    };
    let octree = scheme(last(members, "subdivisionScheme"), tile)?;
    let subtree_levels = levels(
        last(members, "subtreeLevels"),
        subtree_limit(octree),
        Field::SubtreeLevels,
        tile,
    )?;
    let available_levels = levels(
        last(members, "availableLevels"),
        AVAILABLE_LEVELS,
        Field::AvailableLevels,
        tile,
    )?;
    let uri = subtree_uri(last(members, "subtrees"), tile)?;
    let subtrees = template_of(alloc, uri, octree, tile)?;
    Ok(OwnSubdivision {
        octree,
        subtree_levels,
        available_levels,
        subtrees,
    })
}
