//! Affine maps of whole numbers.

ghost use Rattle.std.specs.Prelude.{◌≡◌, ◌≤◌, ◌+ℤ◌, unsigned_abs};
ghost use Rattle.fixed_geometry.specs.Points.{IsWithin, coordinate_limit};
ghost use Rattle.fixed_geometry.specs.Maps.{linear_limit};
ghost use Rattle.fixed_geometry.specs.Maps as maps;
ghost use Rattle.fixed_geometry.specs.Quotient as quotients;

use crate::limits::{LINEAR_LIMIT, PARTS};
use crate::point::{Point, transposed};
use crate::quotient::{clamp, half};
use crate::roots::root_ceil;
use crate::sixteen::{AffineError, Sixteen};
use std::marker::Model;

/// The linear entry that stands for 1.
pub(crate) const ONE: i64 = PARTS as i64;

/// An affine map: three rows of three linear entries in 10^-9 parts, and a shift in millimetres.
///
/// Linear entries are at most 2^20 in size, which is 2^20 * 10^9 parts, and shifts at most 2^36
/// millimetres.
#[derive(Clone, Copy)]
pub struct Affine {
    x: Point,
    y: Point,
    z: Point,
    shift: Point,
    /// The length of the longest column, which each moved volume and error asks for.
    scale: u64,
    /// Whether the rows are those of the identity. Such maps are common, and move a point by three
    /// sums.
    only_shifts: bool,
}

impl Model for Affine {
    ghost use Rattle.std.proofs.Common.{refl};
    ghost use Rattle.fixed_geometry.specs.Maps.{Map, IsKept, max_scale, only_shift};

    ghost Value = { Map };

    ghost view = { λ a. record { x = a.x; y = a.y; z = a.z; shift = a.shift } };

    ghost invariant = { λ a.
        IsKept (record { x = a.x; y = a.y; z = a.z; shift = a.shift }) a.scale a.only_shifts };

    ghost inverse = { λ m. record {
      x = m.x;
      y = m.y;
      z = m.z;
      shift = m.shift;
      scale = max_scale m;
      only_shifts = only_shift m.x m.y m.z;
    } };

    ghost inverse_ok = { λ a h. Prim.rw (h.scale_is, h.shifts_is) refl };
}

impl Affine {
    ghost use Rattle.std.specs.Prelude.{◌≡◌, ◌≤◌, pos, length};
    ghost use Rattle.fixed_geometry.specs.Points.{IsWithin, coordinate_limit};
    ghost use Rattle.fixed_geometry.specs.Maps as maps;
    ghost use Rattle.fixed_geometry.specs.Maps.{IsBounded, linear_limit, scale_limit};
    ghost use Rattle.fixed_geometry.specs.Sixteen.{affine_of};

    /// The map that leaves each point where it is.
    pub fn identity() -> Affine
        ensures { result ≡ maps.identity }
    {
        Affine {
            x: Point { x: ONE, y: 0, z: 0 },
            y: Point { x: 0, y: ONE, z: 0 },
            z: Point { x: 0, y: 0, z: ONE },
            shift: Point { x: 0, y: 0, z: 0 },
            scale: PARTS,
            only_shifts: true,
        }
    }

    /// The map of the sixteen numbers of a transform (OGC 22-025r4, `transform` of a tile).
    ///
    /// `OutOfRange` with the first index whose number was out of range; where all are in range,
    /// `NotAffine` if the bottom row is not 0, 0, 0, 1.
    pub fn from_sixteen(numbers: &Sixteen) -> Result<Affine, AffineError>
        requires { length numbers.now ≡ 16 }
        ensures { result ≡ affine_of numbers.now }
    {
        let missing = numbers.first_missing();
        if missing < 16 {
            return Err(AffineError::OutOfRange { index: missing });
        }
        if !numbers.is_affine() {
            return Err(AffineError::NotAffine);
        }
        Ok(Affine::of_rows(
            numbers.linear(0, 4, 8),
            numbers.linear(1, 5, 9),
            numbers.linear(2, 6, 10),
            numbers.shift(),
        ))
    }

    /// The map that applies `own` first, and then this one: a tile's own transform below its
    /// parent's.
    ///
    /// Entries are rounded, a half away from zero, and clamped to the limits of a map.
    pub fn then(&self, own: &Affine) -> Affine
        ensures { result ≡ maps.after self.now own.now }
    {
        let shift = self.apply(own.shift);
        if self.only_shifts {
            return Affine { shift, ..*own };
        }
        Affine::of_rows(
            row_after(self.x, own),
            row_after(self.y, own),
            row_after(self.z, own),
            shift,
        )
    }

    /// Where the map moves a point, in millimetres.
    #[inline]
    pub fn apply(&self, p: Point) -> Point
        requires { IsWithin coordinate_limit p }
        ensures value { result ≡ maps.apply self.now p }
        ensures within { IsWithin coordinate_limit result }
    {
        if self.only_shifts {
            return shifted(p, self.shift);
        }
        self.apply_rows(p)
    }

    /// The same for rows of any entries.
    #[inline(never)]
    fn apply_rows(&self, p: Point) -> Point
        requires { IsWithin coordinate_limit p }
        ensures value { result ≡ maps.apply self.now p }
        ensures within { IsWithin coordinate_limit result }
    {
        Point {
            x: point_part(self.x, self.shift.x, p),
            y: point_part(self.y, self.shift.y, p),
            z: point_part(self.z, self.shift.z, p),
        }
    }

    /// What the map makes of a vector, in millimetres: no shift changes it.
    #[inline]
    pub fn apply_vector(&self, v: Point) -> Point
        requires { IsWithin coordinate_limit v }
        ensures value { result ≡ maps.apply_vector self.now v }
        ensures within { IsWithin coordinate_limit result }
    {
        if self.only_shifts {
            return v;
        }
        self.apply_rows_to_vector(v)
    }

    /// The same for rows of any entries.
    #[inline(never)]
    fn apply_rows_to_vector(&self, v: Point) -> Point
        requires { IsWithin coordinate_limit v }
        ensures value { result ≡ maps.apply_vector self.now v }
        ensures within { IsWithin coordinate_limit result }
    {
        Point {
            x: vector_part(self.x, v),
            y: vector_part(self.y, v),
            z: vector_part(self.z, v),
        }
    }

    /// The length of the longest column in 10^-9 parts, rounded up: the greatest factor by which an
    /// axis is stretched.
    pub fn max_scale(&self) -> i128
        ensures value { result ≡ pos (maps.max_scale self.now) }
        ensures bound { maps.max_scale self.now ≤ scale_limit }
        ensures within { IsBounded self.now }
    {
        i128::from(self.scale)
    }

    /// The map of these rows and this shift.
    fn of_rows(x: Point, y: Point, z: Point, shift: Point) -> Affine
        requires { IsBounded (record { x = x; y = y; z = z; shift = shift }) }
        ensures { result ≡ record { x = x; y = y; z = z; shift = shift } }
    {
        let (first, second, third) = transposed(x, y, z);
        let longest = first.norm().max(second.norm()).max(third.norm());
        Affine {
            x,
            y,
            z,
            shift,
            scale: root_ceil(longest) as u64,
            only_shifts: only_shift(x, y, z),
        }
    }
}

/// Whether the rows are those of the identity, so that a map of these rows only shifts.
fn only_shift(x: Point, y: Point, z: Point) -> bool
    ensures { result ≡ maps.only_shift x y z }
{
    is_row(x, ONE, 0, 0) && is_row(y, 0, ONE, 0) && is_row(z, 0, 0, ONE)
}

#[tactic(auto, unfolding(crate::specs::Maps::is_row))]
fn is_row(row: Point, x: i64, y: i64, z: i64) -> bool
    ensures { result ≡ maps.is_row row (record { x = x; y = y; z = z }) }
{
    row.x == x && row.y == y && row.z == z
}

/// A point shifted by a map that does nothing else.
fn shifted(p: Point, shift: Point) -> Point
    ensures value { result ≡ maps.shifted p shift }
    ensures within { IsWithin coordinate_limit result }
{
    Point {
        x: sum(p.x, shift.x),
        y: sum(p.y, shift.y),
        z: sum(p.z, shift.z),
    }
}

/// A sum of two coordinates, clamped to their limit.
fn sum(a: i64, b: i64) -> i64
    ensures value { result ≡ quotients.clamp (a +ℤ b) }
    ensures bound { unsigned_abs result ≤ coordinate_limit }
{
    clamp(i128::from(a) + i128::from(b))
}

/// One coordinate of a moved point.
fn point_part(row: Point, shift: i64, p: Point) -> i64
    requires row { IsWithin linear_limit row }
    requires shift { unsigned_abs shift ≤ coordinate_limit }
    requires p { IsWithin coordinate_limit p }
    ensures value { result ≡ maps.point_part row shift p }
    ensures bound { unsigned_abs result ≤ coordinate_limit }
{
    clamp(half(row.dot(p), PARTS as u128) + i128::from(shift))
}

/// One component of a moved vector.
fn vector_part(row: Point, v: Point) -> i64
    requires row { IsWithin linear_limit row }
    requires v { IsWithin coordinate_limit v }
    ensures value { result ≡ maps.vector_part row v }
    ensures bound { unsigned_abs result ≤ coordinate_limit }
{
    clamp(half(row.dot(v), PARTS as u128))
}

/// One row of a product.
fn row_after(row: Point, own: &Affine) -> Point
    requires { IsWithin linear_limit row }
    ensures value { result ≡ maps.row_after row own.now }
    ensures bound { IsWithin linear_limit result }
{
    let (x, y, z) = transposed(own.x, own.y, own.z);
    Point {
        x: entry(row, x),
        y: entry(row, y),
        z: entry(row, z),
    }
}

/// One linear entry of a product.
fn entry(row: Point, column: Point) -> i64
    requires row { IsWithin linear_limit row }
    requires column { IsWithin linear_limit column }
    ensures value { result ≡ maps.entry row column }
    ensures bound { unsigned_abs result ≤ linear_limit }
{
    let limit = i128::from(LINEAR_LIMIT);
    half(row.dot(column), PARTS as u128).clamp(-limit, limit) as i64
}
