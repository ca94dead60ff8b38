//! Boxes and spheres at given places, and each public call once.

ghost use Rattle.std.specs.Prelude.{◌≡◌, ◌≤◌, length, unsigned_abs};
ghost use Rattle.volumes.specs.Limits.{IsBoxInRange, IsInRange, IsPlaneInRange, offset_limit};

use crate::{Plane, Volume, moved_error};
use fixed_geometry::{Affine, Point, Sixteen};

fn point(x: i64, y: i64, z: i64) -> Point
    ensures { result ≡ record { x = x; y = y; z = z } }
{
    Point { x, y, z }
}

/// The box of half axes 8,000 at the origin.
fn cube() -> Volume
    ensures { IsBoxInRange result }
{
    Volume::Oriented {
        centre: point(0, 0, 0),
        axes: [point(8000, 0, 0), point(0, 8000, 0), point(0, 0, 8000)],
    }
}

/// The sphere of radius 5,000 at the origin.
fn ball() -> Volume
    ensures { IsInRange result }
{
    Volume::Ball {
        centre: point(0, 0, 0),
        radius: 5000,
    }
}

/// The plane that bounds what is east of `x`.
fn east_of(x: i64) -> Plane
    requires { unsigned_abs x ≤ offset_limit }
    ensures { IsPlaneInRange result }
{
    Plane {
        n: point(1, 0, 0),
        d: -x,
    }
}

#[test]
fn distances(rt: HostRuntime) {
    let cube = cube();
    assert_eq!(rt; cube.distance(point(0, 0, 10000)), 2000);
    assert_eq!(rt; cube.distance(point(11000, 12000, 8000)), 5000);
    assert!(rt; cube.is_within(point(11000, 12000, 8000), 5000));
    assert!(rt; !cube.is_within(point(11000, 12000, 8000), 4999));
    assert!(rt; cube.contains(point(8000, -8000, 8000)));
    assert!(rt; !cube.contains(point(8000, -8001, 8000)));

    let ball = ball();
    assert_eq!(rt; ball.distance(point(0, 0, 10000)), 5000);
    assert_eq!(rt; ball.distance(point(0, 0, 0)), 0);
    assert!(rt; ball.is_within(point(0, 0, 10000), 5000));
    assert!(rt; !ball.is_within(point(0, 0, 10000), 4999));
    assert!(rt; ball.is_within(point(0, 0, 10000), u64::MAX));
    assert!(rt; ball.contains(point(0, 3000, 4000)));
    assert!(rt; !ball.contains(point(0, 3000, 4001)));
}

#[test]
fn half_axes_without_length(rt: HostRuntime) {
    let none = point(0, 0, 0);
    let everywhere = Volume::Oriented {
        centre: none,
        axes: [none, none, none],
    };
    assert_eq!(rt; everywhere.distance(point(1000, 2000, 3000)), 0);
    assert!(rt; everywhere.contains(point(1000, 2000, 3000)));
}

#[test]
fn sides_of_planes(rt: HostRuntime) {
    assert!(rt; !cube().outside(&east_of(8000)));
    assert!(rt; cube().outside(&east_of(8001)));
    assert!(rt; !ball().outside(&east_of(5000)));
    assert!(rt; ball().outside(&east_of(5001)));
}

#[test]
fn cells_of_a_box(rt: HostRuntime) {
    let quarter = Volume::Oriented {
        centre: point(-4000, 4000, 0),
        axes: [point(4000, 0, 0), point(0, 4000, 0), point(0, 0, 8000)],
    };
    assert_eq!(rt; cube().split_quad(1, 0, 1), quarter);
    let sixty_fourth = Volume::Oriented {
        centre: point(-6000, 2000, 6000),
        axes: [point(2000, 0, 0), point(0, 2000, 0), point(0, 0, 2000)],
    };
    assert_eq!(rt; cube().split_oct(2, 0, 2, 3), sixty_fourth);
    let smallest = Volume::Oriented {
        centre: point(-8000, 8000, 0),
        axes: [point(1, 0, 0), point(0, 1, 0), point(0, 0, 8000)],
    };
    assert_eq!(rt; cube().split_quad(29, 0, 536870911), smallest);
}

fn read_sixteen(texts: [&'static str; 16]) -> Sixteen
    ensures { length result ≡ 16 }
{
    let mut numbers = Sixteen::new();
    for text in texts.iter() {
        numbers.add(text);
    }
    numbers
}

#[test]
fn a_map_that_stretches(rt: HostRuntime) {
    let numbers = read_sixteen([
        "0.5", "0", "0", "0", "0", "2", "0", "0", "0", "0", "1", "0", "1", "0", "0", "1",
    ]);
    let Ok(map) = Affine::from_sixteen(&numbers) else {
        return assert!(rt; false);
    };
    let ball = Volume::Ball {
        centre: point(1000, 1000, 1000),
        radius: 1000,
    };
    let moved = Volume::Ball {
        centre: point(1500, 2000, 1000),
        radius: 2000,
    };
    assert_eq!(rt; ball.moved(&map), moved);
    assert_eq!(rt; moved_error(7, &map), 14);
}

#[test]
fn a_city(rt: HostRuntime) {
    let numbers = read_sixteen([
        "0.8", "0.6", "0", "0", "-0.6", "0.8", "0", "0", "0", "0", "1", "0", "1215000", "-4736000",
        "4081000", "1",
    ]);
    let Ok(map) = Affine::from_sixteen(&numbers) else {
        return assert!(rt; false);
    };
    let block = Volume::Oriented {
        centre: point(0, 0, 0),
        axes: [point(512000, 0, 0), point(0, 512000, 0), point(0, 0, 64000)],
    };
    let moved = block.moved(&map);
    let eye = point(1215000000, -4736000000, 4082000000);
    assert_eq!(rt; moved.distance(eye), 936000);
    if let Volume::Oriented { .. } = moved {
        assert!(rt; moved.split_oct(1, 0, 0, 0).outside(&east_of(1215400000)));
        assert!(rt; !moved.split_oct(1, 1, 0, 0).outside(&east_of(1215400000)));
    } else {
        assert!(rt; false);
    }
}
