//! Views, and spheres before them, at given places: each public call once.

ghost use Rattle.std.specs.Prelude.{◌≡◌};
ghost use Rattle.volumes.specs.Limits.{IsInRange};

use crate::{Field, View, ViewError, culled, wants};
use fixed_geometry::Point;
use volumes::{Plane, Volume};

fn point(x: i64, y: i64, z: i64) -> Point
    ensures { result ≡ record { x = x; y = y; z = z } }
{
    Point { x, y, z }
}

/// The sphere of radius 5,000 at the origin.
fn ball() -> Volume
    ensures { IsInRange result }
{
    Volume::Ball {
        centre: point(0, 0, 0),
        radius: 5000,
    }
}

/// What bounds the view to the east of `x`.
fn east_of(x: i32) -> Plane {
    Plane {
        n: point(1, 0, 0),
        d: -i64::from(x),
    }
}

fn view(eye: Point, planes: &[Plane]) -> Result<View, ViewError> {
    View::new(eye, 1000, 1, 2, 256, planes)
}

#[test]
fn parts_of_a_view(rt: HostRuntime) {
    let eye = point(0, 0, 10000);
    let planes = [east_of(8000), east_of(-8000)];
    let Ok(made) = view(eye, &planes) else {
        return assert!(rt; false);
    };
    assert_eq!(rt; made.eye(), eye);
    assert_eq!(rt; made.height(), 1000);
    assert_eq!(rt; made.tan_over(), 1);
    assert_eq!(rt; made.tan_under(), 2);
    assert_eq!(rt; made.allowed(), 256);
    assert_eq!(rt; made.planes(), planes.as_slice());
    assert!(rt; view(eye, &planes) == Ok(made));
    assert!(rt; view(eye, &[]) != Ok(made));
}

#[test]
fn views_past_their_limits(rt: HostRuntime) {
    let eye = point(0, 0, 10000);
    let flat = Plane {
        n: point(0, 0, 0),
        d: 1,
    };
    let range = |field| Err(ViewError::Range { field });
    assert!(rt; View::new(eye, 0, 1, 2, 256, &[]) == range(Field::Height));
    assert!(rt; View::new(eye, 1000, 1, 1048577, 0, &[]) == range(Field::Tangent));
    assert!(rt; View::new(eye, 1000, 1, 2, 0, &[flat]) == range(Field::Allowed));
    assert!(rt; view(point(0, 0, -68719476737), &[flat]) == range(Field::Eye));
    assert!(rt; view(eye, &[flat]) == range(Field::Planes));
    assert!(rt; view(eye, &[east_of(0); 17]) == range(Field::Planes));
}

#[test]
fn the_error_that_is_just_allowed(rt: HostRuntime) {
    let Ok(outside) = view(point(0, 0, 10000), &[]) else {
        return assert!(rt; false);
    };
    assert!(rt; !wants(&ball(), 80000, &outside));
    assert!(rt; wants(&ball(), 80001, &outside));
    let Ok(inside) = view(point(0, 0, 0), &[]) else {
        return assert!(rt; false);
    };
    assert!(rt; !wants(&ball(), 0, &inside));
    assert!(rt; wants(&ball(), 1, &inside));
}

#[test]
fn planes_that_leave_a_sphere_out(rt: HostRuntime) {
    let eye = point(0, 0, 10000);
    let Ok(seen) = view(eye, &[east_of(-8000), east_of(5000)]) else {
        return assert!(rt; false);
    };
    assert!(rt; !culled(&ball(), &seen));
    let Ok(unseen) = view(eye, &[east_of(-8000), east_of(5001)]) else {
        return assert!(rt; false);
    };
    assert!(rt; culled(&ball(), &unseen));
}
