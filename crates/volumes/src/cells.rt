//! The cells of a box that is divided evenly (OGC 22-025r4, implicit tiling).

ghost use Rattle.std.specs.Prelude.{◌≡◌, ◌≤◌, ◌^◌, ◌*ℤ◌, unsigned_abs};
ghost use Rattle.fixed_geometry.specs.Points.{IsWithin, coordinate_limit, dot};
ghost use Rattle.fixed_geometry.specs.Quotient.{clamp};
ghost use Rattle.volumes.specs.Cells.{IsCellCount, IsOctCell, IsPlace, IsQuadCell};
ghost use Rattle.volumes.specs.Cells.{cell_centre, cell_count, cell_offset, centre_component};
ghost use Rattle.volumes.specs.Cells.{divided, oct_offsets, quad_offsets, split_oct, split_quad};
ghost use Rattle.volumes.specs.Limits.{AreHalfAxesInRange, IsBoxInRange, level_limit};

use crate::shifts::{half_shifted, up_shifted};
use crate::volume::Volume;
use fixed_geometry::{COORDINATE_LIMIT, Point, clamp, half, transposed};

/// The deepest level on which a cell's centre is found in 64 bits.
const SHORT_LEVEL: u8 = 24;

/// How far the offsets reach on that level.
const SHORT_LIMIT: u64 = 1 << SHORT_LEVEL;

impl Volume {
    /// The box of the quadtree's cell at this level and place: the first two half axes are divided
    /// into 2^level parts, the third stays whole.
    pub fn split_quad(&self, level: u8, x: u32, y: u32) -> Volume
        requires volume { IsBoxInRange self.now }
        requires cell { IsQuadCell level x y }
        ensures value { result ≡ split_quad self.now level x y }
        ensures within { IsBoxInRange result }
    {
        match *self {
            Volume::Oriented { centre, axes } => {
                let offsets = quad_offsets(level, x, y);
                Volume::Oriented {
                    centre: cell_centre(centre, &axes, offsets, level),
                    axes: [divided(axes[0], level), divided(axes[1], level), axes[2]],
                }
            }
            Volume::Ball { .. } => *self,
        }
    }

    /// The box of the octree's cell at this level and place: all three half axes are divided into
    /// 2^level parts.
    pub fn split_oct(&self, level: u8, x: u32, y: u32, z: u32) -> Volume
        requires volume { IsBoxInRange self.now }
        requires cell { IsOctCell level x y z }
        ensures value { result ≡ split_oct self.now level x y z }
        ensures within { IsBoxInRange result }
    {
        match *self {
            Volume::Oriented { centre, axes } => {
                let offsets = oct_offsets(level, x, y, z);
                Volume::Oriented {
                    centre: cell_centre(centre, &axes, offsets, level),
                    axes: [
                        divided(axes[0], level),
                        divided(axes[1], level),
                        divided(axes[2], level),
                    ],
                }
            }
            Volume::Ball { .. } => *self,
        }
    }
}

/// How many cells stand side by side at a level.
fn cell_count(level: u8) -> u64
    requires { level ≤ level_limit }
    ensures value { result ≡ cell_count level }
    ensures within { IsCellCount result }
{
    1 << level
}

/// Where the centre of a cell stands along a half axis, in parts of which it has 2^level.
fn cell_offset(level: u8, place: u32) -> i64
    requires { IsPlace level place }
    ensures value { result ≡ cell_offset level place }
    ensures bound { unsigned_abs result ≤ cell_count level }
{
    2 * i64::from(place) + 1 - cell_count(level) as i64
}

fn quad_offsets(level: u8, x: u32, y: u32) -> Point
    requires { IsQuadCell level x y }
    ensures value { result ≡ quad_offsets level x y }
    ensures bound { IsWithin (cell_count level) result }
{
    Point {
        x: cell_offset(level, x),
        y: cell_offset(level, y),
        z: 0,
    }
}

fn oct_offsets(level: u8, x: u32, y: u32, z: u32) -> Point
    requires { IsOctCell level x y z }
    ensures value { result ≡ oct_offsets level x y z }
    ensures bound { IsWithin (cell_count level) result }
{
    Point {
        x: cell_offset(level, x),
        y: cell_offset(level, y),
        z: cell_offset(level, z),
    }
}

/// The centre of the cell at these offsets along the half axes.
fn cell_centre(centre: Point, axes: &[Point; 3], offsets: Point, level: u8) -> Point
    requires centre { IsWithin coordinate_limit centre }
    requires axes { AreHalfAxesInRange axes.now }
    requires level { level ≤ level_limit }
    requires offsets { IsWithin (cell_count level) offsets }
    ensures value { result ≡ cell_centre centre axes.now offsets (cell_count level) }
    ensures bound { IsWithin coordinate_limit result }
{
    let (x, y, z) = transposed(axes[0], axes[1], axes[2]);
    Point {
        x: centre_component(centre.x, x, offsets, level),
        y: centre_component(centre.y, y, offsets, level),
        z: centre_component(centre.z, z, offsets, level),
    }
}

/// One component of a cell's centre, from that of the box's centre and those of its half axes.
fn centre_component(from: i64, components: Point, offsets: Point, level: u8) -> i64
    requires from { unsigned_abs from ≤ coordinate_limit }
    requires components { IsWithin coordinate_limit components }
    requires level { level ≤ level_limit }
    requires offsets { IsWithin (cell_count level) offsets }
    ensures value { result ≡ centre_component from components offsets (cell_count level) }
    ensures bound { unsigned_abs result ≤ coordinate_limit }
{
    if level <= SHORT_LEVEL {
        let shift = half_shifted(short_dot(components, offsets), level);
        return short_clamp(from + shift);
    }
    long_component(from, components, offsets, level)
}

/// One component of a cell's centre on any level.
fn long_component(from: i64, components: Point, offsets: Point, level: u8) -> i64
    requires from { unsigned_abs from ≤ coordinate_limit }
    requires components { IsWithin coordinate_limit components }
    requires level { level ≤ level_limit }
    requires offsets { IsWithin (cell_count level) offsets }
    ensures value { result ≡ centre_component from components offsets (cell_count level) }
    ensures bound { unsigned_abs result ≤ coordinate_limit }
{
    let shift = half(components.dot(offsets), u128::from(cell_count(level)));
    clamp(i128::from(from) + shift)
}

/// `Point::dot` in the 64 bits that such offsets allow.
fn short_dot(components: Point, offsets: Point) -> i64
    requires components { IsWithin coordinate_limit components }
    requires offsets { IsWithin SHORT_LIMIT offsets }
    ensures value { result ≡ dot components offsets }
    ensures bound { unsigned_abs result ≤ 2 ^ 62 }
{
    short_product(components.x, offsets.x)
        + short_product(components.y, offsets.y)
        + short_product(components.z, offsets.z)
}

fn short_product(component: i64, offset: i64) -> i64
    requires component { unsigned_abs component ≤ coordinate_limit }
    requires offset { unsigned_abs offset ≤ SHORT_LIMIT }
    ensures value { result ≡ component *ℤ offset }
    ensures bound { unsigned_abs result ≤ 2 ^ 60 }
{
    component * offset
}

/// `clamp` of a number of 64 bits.
fn short_clamp(n: i64) -> i64
    ensures value { result ≡ clamp n }
    ensures bound { unsigned_abs result ≤ coordinate_limit }
{
    n.clamp(-(COORDINATE_LIMIT as i64), COORDINATE_LIMIT as i64)
}

/// A half axis divided among the cells, each component rounded away from zero.
fn divided(axis: Point, level: u8) -> Point
    requires axis { IsWithin coordinate_limit axis }
    requires level { level ≤ level_limit }
    ensures value { result ≡ divided axis (cell_count level) }
    ensures bound { IsWithin coordinate_limit result }
{
    Point {
        x: up_shifted(axis.x, level),
        y: up_shifted(axis.y, level),
        z: up_shifted(axis.z, level),
    }
}
