//! Bounding volumes (OGC 22-025r4, "Bounding volumes").

ghost use Rattle.std.specs.Prelude.{◌≡◌, ◌≤◌, ◌≤ℤ◌, pos, unsigned_abs, IfSome, IfOk};
ghost use Rattle.json_decimal.specs.Handles.{json_of};
ghost use Rattle.json_decimal.specs.Named.{plain};
ghost use Rattle.fixed_geometry.specs.Points.{IsWithin, coordinate_limit};
ghost use Rattle.volumes.specs.Limits.{IsInRange};
ghost use Rattle.tileset_schema.specs.Numbers.{coordinate, radius, point, box_of, sphere_of};
ghost use Rattle.tileset_schema.specs.Points.{box_by};
ghost use Rattle.tileset_schema.specs.Seen.{value_seen};
ghost use Rattle.tileset_schema.specs.Volumes as volumes;

use crate::error::DocumentError;
use crate::field::Field;
use crate::members::last;
use crate::numbers::numbers;
use fixed_geometry::{COORDINATE_LIMIT, Point, scaled};
use json_decimal::JsonRef;
use volumes::Volume;

/// A length in millimetres.
fn coordinate(spelling: &str) -> Option<i64>
    ensures value { result ≡ coordinate spelling.now }
    ensures within { IfSome result (λ n. unsigned_abs n ≤ coordinate_limit) }
{
    match scaled(spelling, 3, COORDINATE_LIMIT as i128) {
        Ok(n) => Some(n as i64),
        Err(_) => None,
    }
}

/// A length in millimetres that isn't negative.
fn radius(spelling: &str) -> Option<i64>
    ensures value { result ≡ radius spelling.now }
    ensures from { IfSome result (λ n. pos 0 ≤ℤ n) }
    ensures to { IfSome result (λ n. n ≤ℤ pos coordinate_limit) }
{
    let length = coordinate(spelling)?;
    if length < 0 {
        return None;
    }
    Some(length)
}

/// The point of three coordinates.
fn point(x: &str, y: &str, z: &str) -> Option<Point>
    ensures value { result ≡ point x.now y.now z.now }
    ensures within { IfSome result (λ p. IsWithin coordinate_limit p) }
{
    let x = coordinate(x)?;
    let y = coordinate(y)?;
    let z = coordinate(z)?;
    Some(Point { x, y, z })
}

/// A box by its centre and its three half axes, if each is in range.
fn box_by(
    centre: Option<Point>,
    a: Option<Point>,
    b: Option<Point>,
    c: Option<Point>,
) -> Option<Volume>
    requires centre { IfSome centre (λ p. IsWithin coordinate_limit p) }
    requires first { IfSome a (λ p. IsWithin coordinate_limit p) }
    requires second { IfSome b (λ p. IsWithin coordinate_limit p) }
    requires third { IfSome c (λ p. IsWithin coordinate_limit p) }
    ensures value { result ≡ box_by centre a b c }
    ensures within { IfSome result IsInRange }
{
    Some(Volume::Oriented {
        centre: centre?,
        axes: [a?, b?, c?],
    })
}

/// A box by its twelve numbers: its centre and its three half axes.
fn box_of(numbers: &[&str; 12]) -> Option<Volume>
    ensures value { result ≡ box_of (plain numbers.now) }
    ensures within { IfSome result IsInRange }
{
    let [x, y, z, ax, ay, az, bx, by, bz, cx, cy, cz] = *numbers;
    box_by(
        point(x, y, z),
        point(ax, ay, az),
        point(bx, by, bz),
        point(cx, cy, cz),
    )
}

/// A sphere by its four numbers: its centre and its radius.
fn sphere_of(numbers: &[&str; 4]) -> Option<Volume>
    ensures value { result ≡ sphere_of (plain numbers.now) }
    ensures within { IfSome result IsInRange }
{
    let [x, y, z, size] = *numbers;
    let centre = point(x, y, z)?;
    let radius = radius(size)?;
    Some(Volume::Ball { centre, radius })
}

fn read_box(value: JsonRef<'_>, field: Field, tile: u32) -> Result<Volume, DocumentError>
    ensures value { result ≡ volumes.box field tile (json_of value.entry) }
    ensures within { IfOk result IsInRange }
{
    let mut spellings = [""; 12];
    if numbers(value, &mut spellings).is_none() {
        return Err(DocumentError::Shape { field, tile });
    }
    box_of(&spellings).ok_or(DocumentError::OutOfRange { field, tile })
}

fn read_sphere(value: JsonRef<'_>, field: Field, tile: u32) -> Result<Volume, DocumentError>
    ensures value { result ≡ volumes.sphere field tile (json_of value.entry) }
    ensures within { IfOk result IsInRange }
{
    let mut spellings = [""; 4];
    if numbers(value, &mut spellings).is_none() {
        return Err(DocumentError::Shape { field, tile });
    }
    sphere_of(&spellings).ok_or(DocumentError::OutOfRange { field, tile })
}

/// The volume of an object: its box, else its sphere.
pub fn volume_of(value: JsonRef<'_>, field: Field, tile: u32) -> Result<Volume, DocumentError>
    ensures value { result ≡ volumes.volume_of field tile (json_of value.entry) }
    ensures within { IfOk result IsInRange }
{
    let Some(members) = value.members() else {
        return Err(DocumentError::Shape { field, tile });
    };
    if let Some(value) = last(members, "box") {
        return read_box(value, field, tile);
    }
    if let Some(value) = last(members, "sphere") {
        return read_sphere(value, field, tile);
    }
    match last(members, "region") {
        Some(_) => Err(DocumentError::RegionVolume { tile }),
        None => Err(DocumentError::NoVolume { tile }),
    }
}
