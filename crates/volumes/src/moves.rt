//! Volumes and errors under an affine map.

ghost use Rattle.std.specs.Prelude.{◌≡◌, ◌≤◌, ◌≤ℤ◌, pos, unsigned_abs};
ghost use Rattle.fixed_geometry.specs.Maps.{identity};
ghost use Rattle.fixed_geometry.specs.Points.{coordinate_limit};
ghost use Rattle.volumes.specs.Limits.{AreHalfAxesInRange, IsInRange, error_limit};
ghost use Rattle.volumes.specs.Moves.{moved, moved_axes, moved_error, moved_radius};

use crate::volume::Volume;
use fixed_geometry::{Affine, COORDINATE_LIMIT, ERROR_LIMIT, PARTS, Point};

impl Volume {
    /// The volume under the map: its centre moves as a point, half axes move as vectors, and a
    /// radius grows by the map's greatest scale, rounded up and clamped to the limit of
    /// coordinates.
    pub fn moved(&self, by: &Affine) -> Volume
        requires { IsInRange self.now }
        ensures value { result ≡ moved self.now by.now }
        ensures same { by.now ≡ identity → result ≡ self.now }
        ensures within { IsInRange result }
    {
        match *self {
            Volume::Oriented { centre, axes } => Volume::Oriented {
                centre: by.apply(centre),
                axes: moved_axes(&axes, by),
            },
            Volume::Ball { centre, radius } => Volume::Ball {
                centre: by.apply(centre),
                radius: moved_radius(radius, by),
            },
        }
    }
}

fn moved_axes(axes: &[Point; 3], by: &Affine) -> [Point; 3]
    requires { AreHalfAxesInRange axes.now }
    ensures value { result ≡ moved_axes axes.now by.now }
    ensures same { by.now ≡ identity → result ≡ axes.now }
    ensures within { AreHalfAxesInRange result }
{
    [
        by.apply_vector(axes[0]),
        by.apply_vector(axes[1]),
        by.apply_vector(axes[2]),
    ]
}

fn moved_radius(radius: i64, by: &Affine) -> i64
    requires from { pos 0 ≤ℤ radius }
    requires to { radius ≤ℤ pos coordinate_limit }
    ensures value { result ≡ pos (moved_radius (unsigned_abs radius) by.now) }
    ensures same { by.now ≡ identity → result ≡ radius }
    ensures from { pos 0 ≤ℤ result }
    ensures to { result ≤ℤ pos coordinate_limit }
{
    let scaled = u128::from(radius.unsigned_abs()) * by.max_scale() as u128;
    scaled.div_ceil(PARTS as u128).min(COORDINATE_LIMIT as u128) as i64
}

/// A geometric error under the map, in micrometres to the nearest one, clamped to 2^50. It grows by
/// the map's greatest scale.
pub fn moved_error(error: u64, by: &Affine) -> u64
    requires { error ≤ error_limit }
    ensures value { result ≡ moved_error error by.now }
    ensures bound { result ≤ error_limit }
{
    let scaled = u128::from(error) * by.max_scale() as u128;
    let unit = PARTS as u128;
    ((2 * scaled + unit) / (2 * unit)).min(ERROR_LIMIT as u128) as u64
}
