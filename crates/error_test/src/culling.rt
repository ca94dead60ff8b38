//! The test of the planes that bound a view.

ghost use Rattle.std.specs.Prelude.{◌≡◌};
ghost use Rattle.volumes.specs.Limits.{IsInRange};
ghost use Rattle.error_test.specs.Views.{culled};

use crate::view::View;
use volumes::Volume;

/// Whether the volume lies outside one of the view's planes.
pub fn culled(volume: &Volume, view: &View) -> bool
    requires { IsInRange volume.now }
    ensures value { result ≡ culled volume.now view.now }
{
    for plane in view.planes() {
        if volume.outside(plane) {
            return true;
        }
    }
    false
}
