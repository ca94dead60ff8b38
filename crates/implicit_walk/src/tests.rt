//! Implicit tilesets in memory, and what is answered of their places. Expected values are worked
//! out by hand from the bits that are set.

ghost use Rattle.std.specs.Prelude.{◌≡◌, length};
ghost use Rattle.tile_types.specs.declared.key.Kind.TheVariants.{Subtree};

mod bits;
mod cells;
mod contents;
mod forest;
mod loaded;
mod numbers;
mod presences;

use crate::{ImplicitRoot, Place};
use std::alloc::Global;
use std::test::Fail;
use tile_types::Kind;
use tile_uri::Base;
use tileset_schema::{Document, ImplicitPart, read};

/// Where the documents stand.
const BASE: &str = "http://tiles/t.json";

/// A place by its level and by x, y and z.
type At = (u8, u32, u32, u32);

/// A quadtree of five levels, in subtrees of two.
const QUADTREE: &str = concat!(
    r#""subdivisionScheme":"QUADTREE","subtreeLevels":2,"availableLevels":5,"#,
    r#""subtrees":{"uri":"s/{level}.{x}.{y}"}"#
);

/// An octree of three levels, in subtrees of two.
const OCTREE: &str = concat!(
    r#""subdivisionScheme":"OCTREE","subtreeLevels":2,"availableLevels":3,"#,
    r#""subtrees":{"uri":"s/{level}/{x}/{y}/{z}"}"#
);

/// A quadtree of thirty levels, in subtrees of three.
const DEEP: &str = concat!(
    r#""subdivisionScheme":"QUADTREE","subtreeLevels":3,"availableLevels":30,"#,
    r#""subtrees":{"uri":"{level}-{x}-{y}"}"#
);

/// A document of one tile, an implicit root in a box of half axes of 8 metres, with these contents.
fn document(alloc: Global, base: &Base, tiling: &str, contents: &str) -> Result<Document, Fail> {
    let text = format!(in alloc;
        concat!(
            r#"{{"asset":{{"version":"1.1"}},"geometricError":8,"root":{{"geometricError":4,"#,
            r#""boundingVolume":{{"box":[0,0,0,8,0,0,0,8,0,0,0,8]}},"contents":[{}],"#,
            r#""implicitTiling":{{{}}}}}}}"#
        ),
        contents,
        tiling
    )?;
    Ok(read(alloc, text.as_bytes(), base)?)
}

/// The implicit root that is a document's root tile.
fn root_of<'a>(document: &'a Document, base: &'a Base) -> Option<ImplicitRoot<'a>> {
    let tile = document.tiles().first()?;
    let part = tile.implicit()?;
    Some(ImplicitRoot::new(part, base, tile.volume(), tile.error()))
}

/// The kind of a subtree's key.
fn kind_of(part: &ImplicitPart) -> Kind
    ensures { let parts = part.now in
        result ≡ Subtree parts.octree parts.subtree_levels (length parts.contents) }
{
    Kind::Subtree {
        octree: part.octree(),
        levels: part.subtree_levels(),
        contents: part.contents().len() as u32,
    }
}

/// The place of these numbers.
fn place(at: At) -> Place
    ensures { result ≡ record { level = at.0; x = at.1; y = at.2; z = at.3 } }
{
    let (level, x, y, z) = at;
    Place { level, x, y, z }
}
