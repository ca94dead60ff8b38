//! The transform of a tile (OGC 22-025r4, "Tile transforms").

ghost use Rattle.std.specs.Prelude.{◌≡◌, length};
ghost use Rattle.json_decimal.specs.Handles.{json_of};
ghost use Rattle.json_decimal.specs.Named.{plain};
ghost use Rattle.fixed_geometry.specs.Sixteen.{affine_of};
ghost use Rattle.tileset_schema.specs.Causes.{seen_by};
ghost use Rattle.tileset_schema.specs.Numbers.{read_from};
ghost use Rattle.tileset_schema.specs.Parts as parts;
ghost use Rattle.tileset_schema.specs.Seen.{value_seen, or_identity};

use crate::error::DocumentError;
use crate::field::Field;
use crate::numbers::numbers;
use fixed_geometry::{Affine, AffineError, Sixteen};
use json_decimal::JsonRef;

/// Sixteen numbers, as a map reads them.
fn sixteen_of(spellings: &[&str; 16]) -> Sixteen
    ensures value { result ≡ read_from 0 (plain spellings.now) }
    ensures count { length result ≡ 16 }
{
    let mut numbers = Sixteen::new();
    for i in 0_usize..16 {
        numbers.add(spellings[i]);
    }
    numbers
}

/// The map of sixteen numbers.
fn map_of(spellings: &[&str; 16], tile: u32) -> Result<Affine, DocumentError>
    ensures { result ≡ parts.map_or_cause tile (affine_of (read_from 0 (plain spellings.now))) }
{
    match Affine::from_sixteen(&sixteen_of(spellings)) {
        Ok(map) => Ok(map),
        Err(AffineError::OutOfRange { .. }) => Err(DocumentError::OutOfRange {
            field: Field::Transform,
            tile,
        }),
        Err(AffineError::NotAffine) => Err(DocumentError::NotAffine { tile }),
    }
}

/// The map of a transform.
fn transform_of(value: JsonRef<'_>, tile: u32) -> Result<Affine, DocumentError>
    ensures { result ≡ parts.transform_of tile (json_of value.entry) }
{
    let mut spellings = [""; 16];
    if numbers(value, &mut spellings).is_none() {
        return Err(DocumentError::Shape {
            field: Field::Transform,
            tile,
        });
    }
    map_of(&spellings, tile)
}

/// The transform of a tile, which stands for the identity where there is none.
pub fn own_transform(value: Option<JsonRef<'_>>, tile: u32) -> Result<Option<Affine>, DocumentError>
    ensures { seen_by or_identity result ≡ parts.own_transform tile (value_seen value.entry) }
{
    match value {
        None => Ok(None),
        Some(value) => Ok(Some(transform_of(value, tile)?)),
    }
}
