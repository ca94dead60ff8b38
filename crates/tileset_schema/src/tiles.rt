//! The tiles of a document, in preorder.

ghost use Rattle.std.specs.Prelude.{◌≡◌, ◌≤◌, length, OnOk};
ghost use Rattle.json_decimal.specs.Handles.{json_of, items_left};
ghost use Rattle.json_decimal.specs.JsonValue.{values};
ghost use Rattle.tileset_schema.specs.Added.{Adds, AddsAll, AddsOne, own_tile};
ghost use Rattle.tileset_schema.specs.Added.{child_values, children_left, next_number};
ghost use Rattle.tileset_schema.specs.Causes.{seen_by};
ghost use Rattle.tileset_schema.specs.Seen.{value_seen};
ghost use Rattle.tileset_schema.specs.Tiles as trees;

use crate::error::DocumentError;
use crate::field::Field;
use crate::limits::TILE_LIMIT;
use crate::parts::push_tile;
use crate::tile_values::TileValues;
use crate::written::Written;
use json_decimal::{JsonItems, JsonRef};
use std::alloc::Global;
use tile_uri::Base;

/// The number of the next tile.
fn next_number(tiles: &Vec<Written>) -> Result<u32, DocumentError>
    ensures { result ≡ next_number (length tiles.now.items) }
{
    if tiles.len() < TILE_LIMIT as usize {
        return Ok(tiles.len() as u32);
    }
    Err(DocumentError::TooManyTiles)
}

/// Beside `implicitTiling` a tile writes no children.
fn check_children(
    implicit: Option<JsonRef<'_>>,
    items: JsonItems<'_>,
    tile: u32,
) -> Result<(), DocumentError>
    ensures { result ≡ trees.may_have tile (value_seen implicit.entry) (items_left items.entry) }
{
    let mut rest = items;
    if implicit.is_some() && rest.next().is_some() {
        return Err(DocumentError::ImplicitChildren { tile });
    }
    Ok(())
}

/// The children of a tile.
fn children_of<'a>(
    value: Option<JsonRef<'a>>,
    implicit: Option<JsonRef<'_>>,
    tile: u32,
) -> Result<Option<JsonItems<'a>>, DocumentError>
    ensures { seen_by children_left result
        ≡ child_values tile (value_seen implicit.entry) (value_seen value.entry) }
{
    let Some(value) = value else {
        return Ok(None);
    };
    let Some(items) = value.items() else {
        return Err(DocumentError::Shape {
            field: Field::Children,
            tile,
        });
    };
    check_children(implicit, items, tile)?;
    Ok(Some(items))
}

/// Adds a tile without those below it, and gives its children. It is a call of its own, so that the
/// recursion holds none of what it reads.
#[inline(never)]
fn add_tile<'a>(
    alloc: Global,
    base: &Base,
    value: JsonRef<'a>,
    tiles: &mut Vec<Written>,
) -> Result<Option<JsonItems<'a>>, DocumentError>
    ensures { AddsOne tiles.old.items tiles.new.items result
        (own_tile base.now (length tiles.old.items) (json_of value.entry)) }
{
    let number = next_number(tiles)?;
    let Some(members) = value.members() else {
        return Err(DocumentError::Shape {
            field: Field::Tile,
            tile: number,
        });
    };
    let mut own = TileValues::new();
    own.take(members);
    push_tile(alloc, base, &own, number, tiles)?;
    children_of(own.children, own.implicit_tiling, number)
}

/// Adds a tile and all tiles below it. A JSON text nests 256 deep at most, so that the stack is
/// enough.
#[cycle(tiles)]
pub fn read_tile(
    alloc: Global,
    base: &Base,
    value: JsonRef<'_>,
    tiles: &mut Vec<Written>,
) -> Result<(), DocumentError>
    requires few { length tiles.old.items ≤ TILE_LIMIT }
    ensures few { OnOk result (length tiles.new.items ≤ TILE_LIMIT) }
    ensures tile { Adds tiles.old.items tiles.new.items result
        (trees.tile base.now (length tiles.old.items) (json_of value.entry)) }
{
    let number = tiles.len();
    let children = add_tile(alloc, base, value, tiles)?;
    read_children(alloc, base, children, tiles)?;
    let size = tiles.len() - number;
    tiles[number].set_size(size as u32);
    Ok(())
}

/// Adds the children of a tile and all tiles below them.
#[cycle(tiles)]
fn read_children(
    alloc: Global,
    base: &Base,
    children: Option<JsonItems<'_>>,
    tiles: &mut Vec<Written>,
) -> Result<(), DocumentError>
    requires few { length tiles.old.items ≤ TILE_LIMIT }
    ensures few { OnOk result (length tiles.new.items ≤ TILE_LIMIT) }
    ensures tiles { AddsAll tiles.old.items tiles.new.items result
        (trees.tiles base.now (length tiles.old.items) (values (children_left children.entry))) }
{
    let Some(mut rest) = children else {
        return Ok(());
    };
    while let Some(child) = rest.next() {
        read_tile(alloc, base, child, tiles)?;
    }
    Ok(())
}
