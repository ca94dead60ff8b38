//! The screen-space error test.

ghost use Rattle.std.specs.Prelude.{◌≡◌, ◌<◌, ◌≤◌, ◌/◌, min};
ghost use Rattle.volumes.specs.Limits.{IsInRange, error_limit};
ghost use Rattle.error_test.specs.Views.{passes};

use crate::view::View;
use volumes::Volume;

/// Whether a tile of this volume and error, in micrometres, is too coarse for the view: its error
/// on the screen is greater than what the view allows.
pub fn wants(volume: &Volume, error: u64, view: &View) -> bool
    requires volume { IsInRange volume.now }
    requires error { error ≤ error_limit }
    ensures value { result ≡ passes volume.now error view.now }
{
    let coarse = u128::from(error) * u128::from(view.error_factor());
    // Where distance * factor < coarse, the distance is at most (coarse - 1) / factor.
    coarse > 0 && volume.is_within(view.eye(), quotient(coarse - 1, view.distance_factor()))
}

/// `n / d`, or the greatest number where the quotient doesn't fit.
fn quotient(n: u128, d: u64) -> u64
    requires { 0 < d }
    ensures { result ≡ min (n / d) u64.MAX }
{
    match u64::try_from(n) {
        Ok(small) => small / d,
        Err(_) => u64::try_from(n / u128::from(d)).unwrap_or(u64::MAX),
    }
}
