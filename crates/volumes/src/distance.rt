//! How far a point is outside a volume.

ghost use Rattle.std.specs.Prelude.{IsTrue, ◌≡◌, ◌<◌, ◌≤◌, ◌^◌, ◌+◌, ◌-◌, ◌*◌, ◌/◌, ◌==◌, nat_le};
ghost use Rattle.std.specs.Prelude.{if◌then◌else◌, unsigned_abs};
ghost use Rattle.fixed_geometry.specs.Points.{IsWithin, coordinate_limit, difference, norm};
ghost use Rattle.fixed_geometry.specs.Root.{floor_root};
ghost use Rattle.volumes.specs.Distances.{contains, distance, gap, is_between_faces, is_inside_box};
ghost use Rattle.volumes.specs.Distances.{squared, squared_gaps};
ghost use Rattle.volumes.specs.Limits.{AreHalfAxesInRange, IsInRange, distance_limit};

use crate::volume::Volume;
use fixed_geometry::{Point, root_ceil, root_floor};

impl Volume {
    /// How far the point is outside the volume, in millimetres rounded down: 0 inside.
    pub fn distance(&self, p: Point) -> u64
        requires volume { IsInRange self.now }
        requires point { IsWithin coordinate_limit p }
        ensures value { result ≡ distance self.now p }
        ensures bound { result ≤ distance_limit }
    {
        match *self {
            Volume::Oriented { centre, axes } => {
                let q = p.minus(centre);
                root_of_gaps(gap(q, axes[0]), gap(q, axes[1]), gap(q, axes[2]))
            }
            Volume::Ball { centre, radius } => {
                let apart = root_floor(squared_apart(p, centre)) as u64;
                apart.saturating_sub(radius.unsigned_abs())
            }
        }
    }

    /// Whether the point is at most this far outside the volume, in millimetres. It compares
    /// squares, so it takes less time than `distance`.
    pub fn is_within(&self, p: Point, bound: u64) -> bool
        requires volume { IsInRange self.now }
        requires point { IsWithin coordinate_limit p }
        ensures value { result ≡ nat_le (distance self.now p) bound }
        ensures bound { distance self.now p ≤ distance_limit }
    {
        match *self {
            Volume::Oriented { centre, axes } => {
                is_root_at_most(squared_gaps(p.minus(centre), &axes), bound)
            }
            Volume::Ball { centre, radius } => {
                let reach = bound.saturating_add(radius.unsigned_abs());
                is_root_at_most(squared_apart(p, centre), reach)
            }
        }
    }

    /// Whether the point is inside the volume or on its surface.
    pub fn contains(&self, p: Point) -> bool
        requires volume { IsInRange self.now }
        requires point { IsWithin coordinate_limit p }
        ensures value { result ≡ contains self.now p }
        ensures at_no_distance { IsTrue result → distance self.now p ≡ 0 }
    {
        match *self {
            Volume::Oriented { centre, axes } => is_inside_box(p.minus(centre), &axes),
            Volume::Ball { centre, radius } => squared_apart(p, centre) <= squared_radius(radius),
        }
    }
}

/// The square of the distance between two points.
fn squared_apart(p: Point, q: Point) -> u128
    requires p { IsWithin coordinate_limit p }
    requires q { IsWithin coordinate_limit q }
    ensures value { result ≡ norm (difference p q) }
    ensures bound { result < 2 ^ 80 }
{
    p.minus(q).norm()
}

/// The root of the sum of the squares of three gaps, rounded down. Where all but one are zero, it
/// is that one.
fn root_of_gaps(a: u64, b: u64, c: u64) -> u64
    requires a { a ≤ 2 ^ 39 }
    requires b { b ≤ 2 ^ 39 }
    requires c { c ≤ 2 ^ 39 }
    ensures value { result ≡ floor_root (squared a + squared b + squared c) }
    ensures bound { result ≤ distance_limit }
{
    if b == 0 && c == 0 {
        return a;
    }
    if a == 0 && c == 0 {
        return b;
    }
    if a == 0 && b == 0 {
        return c;
    }
    root_floor(squared(a) + squared(b) + squared(c)) as u64
}

/// The sum of the squares of the gaps along the three half axes. `q` leads from the box's centre
/// to the point.
fn squared_gaps(q: Point, axes: &[Point; 3]) -> u128
    requires point { IsWithin (2 * coordinate_limit) q }
    requires axes { AreHalfAxesInRange axes.now }
    ensures value { result ≡ squared_gaps q axes.now }
    ensures bound { result < 2 ^ 80 }
{
    squared(gap(q, axes[0])) + squared(gap(q, axes[1])) + squared(gap(q, axes[2]))
}

/// How far the point is beyond the box along this half axis.
#[inline(always)]
fn gap(q: Point, axis: Point) -> u64
    requires point { IsWithin (2 * coordinate_limit) q }
    requires axis { IsWithin coordinate_limit axis }
    ensures value { result ≡ gap q axis }
    ensures bound { result ≤ 2 ^ 39 }
{
    if axis.y == 0 && axis.z == 0 {
        return straight_gap(q.x, axis.x);
    }
    if axis.x == 0 && axis.z == 0 {
        return straight_gap(q.y, axis.y);
    }
    if axis.x == 0 && axis.y == 0 {
        return straight_gap(q.z, axis.z);
    }
    slanted_gap(q, axis)
}

/// How far the point is beyond the box along a half axis of which all components but this are zero:
/// then it takes no product, no root and no quotient.
fn straight_gap(q: i64, component: i64) -> u64
    ensures { let size = unsigned_abs component in
        result ≡ (if size == 0 then 0 else unsigned_abs q - size) }
{
    if component == 0 {
        return 0;
    }
    q.unsigned_abs().saturating_sub(component.unsigned_abs())
}

/// How far the point is beyond the box along any half axis. It isn't inlined, so that `gap` is.
#[inline(never)]
fn slanted_gap(q: Point, axis: Point) -> u64
    requires point { IsWithin (2 * coordinate_limit) q }
    requires axis { IsWithin coordinate_limit axis }
    ensures value { result ≡ gap q axis }
    ensures bound { result ≤ 2 ^ 39 }
{
    let length = axis.norm();
    let along = q.dot(axis).unsigned_abs();
    if along <= length {
        return 0;
    }
    ((along - length) / root_ceil(length)) as u64
}

/// Whether the point isn't beyond the box along any of the half axes.
fn is_inside_box(q: Point, axes: &[Point; 3]) -> bool
    requires point { IsWithin (2 * coordinate_limit) q }
    requires axes { AreHalfAxesInRange axes.now }
    ensures { result ≡ is_inside_box q axes.now }
{
    is_between_faces(q, axes[0]) && is_between_faces(q, axes[1]) && is_between_faces(q, axes[2])
}

/// Whether the point isn't beyond the box along this half axis.
fn is_between_faces(q: Point, axis: Point) -> bool
    requires point { IsWithin (2 * coordinate_limit) q }
    requires axis { IsWithin coordinate_limit axis }
    ensures { result ≡ is_between_faces q axis }
{
    q.dot(axis).unsigned_abs() <= axis.norm()
}

/// Whether the square root of `n`, rounded down, is at most `bound`.
fn is_root_at_most(n: u128, bound: u64) -> bool
    ensures { result ≡ nat_le (floor_root n) bound }
{
    match bound.checked_add(1) {
        Some(next) => n < squared(next),
        None => true,
    }
}

/// The square of a radius.
pub(crate) fn squared_radius(radius: i64) -> u128
    requires { unsigned_abs radius ≤ coordinate_limit }
    ensures value { result ≡ squared (unsigned_abs radius) }
    ensures bound { result ≤ 2 ^ 72 }
{
    squared(radius.unsigned_abs())
}

pub(crate) fn squared(n: u64) -> u128
    ensures { result ≡ squared n }
{
    u128::from(n) * u128::from(n)
}
