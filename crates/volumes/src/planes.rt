//! On which side of a plane a volume lies.

ghost use Rattle.std.specs.Prelude.{◌↔◌, IsTrue, ◌≡◌, ◌≤◌, ◌^◌, ◌*ℤ◌, unsigned_abs};
ghost use Rattle.fixed_geometry.specs.Points.{IsWithin, coordinate_limit, dot};
ghost use Rattle.volumes.specs.Limits.{AreHalfAxesInRange, IsBox, IsInRange, IsPlaneInRange};
ghost use Rattle.volumes.specs.Limits.{normal_limit};
ghost use Rattle.volumes.specs.Planes.{AreCornersOutside, extent, height_above, outside};

use crate::distance::{squared, squared_radius};
use crate::plane::Plane;
use crate::volume::Volume;
use fixed_geometry::Point;

impl Volume {
    /// Whether no point of the volume is on the plane's inner side.
    pub fn outside(&self, plane: &Plane) -> bool
        requires volume { IsInRange self.now }
        requires plane { IsPlaneInRange plane.now }
        ensures value { result ≡ outside self.now plane.now }

        // A box is outside exactly where its eight corners are.
        ensures corners { IsBox self.now → (IsTrue result ↔ AreCornersOutside self.now plane.now) }
    {
        match *self {
            Volume::Oriented { centre, axes } => is_box_outside(centre, &axes, plane),
            Volume::Ball { centre, radius } => {
                let height = height_above(plane, centre);
                height < 0
                    && squared_radius(radius) * plane.n.norm() < squared(height.unsigned_abs())
            }
        }
    }
}

/// Whether the box lies wholly on the plane's outer side.
fn is_box_outside(centre: Point, axes: &[Point; 3], plane: &Plane) -> bool
    requires centre { IsWithin coordinate_limit centre }
    requires axes { AreHalfAxesInRange axes.now }
    requires plane { IsPlaneInRange plane.now }
    ensures { result ≡ outside (Volume.Oriented centre axes.now) plane.now }
{
    let extent = extent(plane, axes[0]) + extent(plane, axes[1]) + extent(plane, axes[2]);
    height_above(plane, centre) + (extent as i64) < 0
}

/// The point's height above the plane, times the normal's length.
fn height_above(plane: &Plane, p: Point) -> i64
    requires plane { IsPlaneInRange plane.now }
    requires point { IsWithin coordinate_limit p }
    ensures value { result ≡ height_above plane.now p }
    ensures bound { unsigned_abs result ≤ 2 ^ 59 }
{
    dot(plane.n, p) + plane.d
}

/// How far the half axis reaches towards the plane, times the normal's length.
fn extent(plane: &Plane, axis: Point) -> u64
    requires plane { IsPlaneInRange plane.now }
    requires axis { IsWithin coordinate_limit axis }
    ensures value { result ≡ extent plane.now axis }
    ensures bound { result ≤ 2 ^ 58 }
{
    dot(plane.n, axis).unsigned_abs()
}

/// `Point::dot` of a normal, in the 64 bits that its limit allows.
fn dot(normal: Point, v: Point) -> i64
    requires normal { IsWithin normal_limit normal }
    requires v { IsWithin coordinate_limit v }
    ensures value { result ≡ dot normal v }
    ensures bound { unsigned_abs result ≤ 2 ^ 58 }
{
    product(normal.x, v.x) + product(normal.y, v.y) + product(normal.z, v.z)
}

fn product(a: i64, b: i64) -> i64
    requires a { unsigned_abs a ≤ normal_limit }
    requires b { unsigned_abs b ≤ coordinate_limit }
    ensures value { result ≡ a *ℤ b }
    ensures bound { unsigned_abs result ≤ 2 ^ 56 }
{
    a * b
}
