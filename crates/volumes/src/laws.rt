//! Laws of distances and planes. Each function does nothing: its contract is the law.

ghost use Rattle.std.specs.Prelude.{◌≤◌, ◌≤ℤ◌, IsTrue, pos};
ghost use Rattle.volumes.specs.Distances.{distance};
ghost use Rattle.volumes.specs.Planes.{at_offset, outside};

use crate::plane::Plane;
use crate::volume::Volume;
use fixed_geometry::Point;

/// What is outside a plane is outside each plane of the same normal that lies farther in.
pub fn outside_farther_in(volume: &Volume, plane: &Plane, d: i64)
    requires outside { IsTrue (outside volume.now plane.now) }
    requires farther_in { d ≤ℤ plane.now.d }
    ensures { IsTrue (outside volume.now (at_offset plane.now d)) }
{}

/// A point is no farther from a sphere than from a smaller one about the same centre.
pub fn larger_sphere_no_farther(centre: Point, radius: i64, larger: i64, p: Point)
    requires radius { pos 0 ≤ℤ radius }
    requires larger { radius ≤ℤ larger }
    ensures { distance (Volume.Ball centre larger) p ≤ distance (Volume.Ball centre radius) p }
{}
