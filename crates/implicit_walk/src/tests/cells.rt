//! Children, boxes and errors of places.

ghost use Rattle.std.specs.Prelude.{◌≡◌};
ghost use Rattle.implicit_walk.specs.Places.{IsPlace};

use super::{At, BASE, DEEP, OCTREE, QUADTREE, document, place, root_of};
use crate::{ImplicitRoot, PlaceRow, child_places, error_at, volume_at};
use fixed_geometry::Point;
use std::process::Abort;
use std::test::Fail;
use tile_uri::Base;
use volumes::Volume;

/// A place, and its children in Morton order.
type Children = (At, &'static [At]);

static IN_A_QUADTREE: [Children; 3] = [
    (
        (0, 0, 0, 0),
        &[(1, 0, 0, 0), (1, 1, 0, 0), (1, 0, 1, 0), (1, 1, 1, 0)],
    ),
    (
        (3, 5, 2, 0),
        &[(4, 10, 4, 0), (4, 11, 4, 0), (4, 10, 5, 0), (4, 11, 5, 0)],
    ),
    ((4, 15, 15, 0), &[]),
];

static IN_AN_OCTREE: [Children; 2] = [
    (
        (1, 1, 0, 1),
        &[
            (2, 2, 0, 2),
            (2, 3, 0, 2),
            (2, 2, 1, 2),
            (2, 3, 1, 2),
            (2, 2, 0, 3),
            (2, 3, 0, 3),
            (2, 2, 1, 3),
            (2, 3, 1, 3),
        ],
    ),
    ((2, 3, 1, 2), &[]),
];

#[test]
fn children_in_a_quadtree(rt: HostRuntime) -> Result<(), Fail> {
    check_children(&rt, QUADTREE, &IN_A_QUADTREE)
}

#[test]
fn children_in_an_octree(rt: HostRuntime) -> Result<(), Fail> {
    check_children(&rt, OCTREE, &IN_AN_OCTREE)
}

fn check_children<R: AllocGlobal + Abort>(
    rt: &R,
    tiling: &str,
    rows: &[Children],
) -> Result<(), Fail> {
    let base = Base::new(rt.alloc(), BASE)?;
    let document = document(rt.alloc(), &base, tiling, "")?;
    let root = root_of(&document, &base).ok_or("no implicit root")?;
    for (at, expected) in rows {
        let place = place(*at);
        assert!(rt; root.has_place(place));
        assert!(rt; are(&child_places(&root, place), expected), "of {at:?}");
    }
    Ok(())
}

/// The row has these places and no more.
fn are(row: &PlaceRow, expected: &[At]) -> bool {
    for (i, at) in expected.iter().enumerate() {
        if row.get(i) != Some(&place(*at)) || row.as_slice().get(i) != Some(&place(*at)) {
            return false;
        }
    }
    row.len() == expected.len() && row.get(expected.len()).is_none()
}

/// A place, the centre of its cell, its half axes, which are those of the coordinates, and its
/// error. The root has half axes of 8 metres and an error of 4 metres.
type Cell = (At, (i64, i64, i64), (i64, i64, i64), u64);

static QUADTREE_CELLS: [Cell; 6] = [
    ((0, 0, 0, 0), (0, 0, 0), (8_000, 8_000, 8_000), 4_000_000),
    (
        (1, 0, 0, 0),
        (-4_000, -4_000, 0),
        (4_000, 4_000, 8_000),
        2_000_000,
    ),
    (
        (1, 0, 1, 0),
        (-4_000, 4_000, 0),
        (4_000, 4_000, 8_000),
        2_000_000,
    ),
    (
        (2, 3, 1, 0),
        (6_000, -2_000, 0),
        (2_000, 2_000, 8_000),
        1_000_000,
    ),
    (
        (3, 0, 6, 0),
        (-7_000, 5_000, 0),
        (1_000, 1_000, 8_000),
        500_000,
    ),
    ((4, 15, 8, 0), (7_500, 500, 0), (500, 500, 8_000), 250_000),
];

static OCTREE_CELLS: [Cell; 3] = [
    ((0, 0, 0, 0), (0, 0, 0), (8_000, 8_000, 8_000), 4_000_000),
    (
        (1, 1, 0, 1),
        (4_000, -4_000, 4_000),
        (4_000, 4_000, 4_000),
        2_000_000,
    ),
    (
        (2, 0, 2, 3),
        (-6_000, 2_000, 6_000),
        (2_000, 2_000, 2_000),
        1_000_000,
    ),
];

/// Half axes are rounded up to whole millimetres, centres to the nearest, and errors down to whole
/// micrometres.
static DEEP_CELLS: [Cell; 2] = [
    ((9, 0, 0, 0), (-7_984, -7_984, 0), (16, 16, 8_000), 7_812),
    (
        (29, 0, 536_870_911, 0),
        (-8_000, 8_000, 0),
        (1, 1, 8_000),
        0,
    ),
];

#[test]
fn cells_of_a_deep_quadtree(rt: HostRuntime) -> Result<(), Fail> {
    check_cells(&rt, DEEP, &DEEP_CELLS)
}

#[test]
fn cells_of_a_quadtree(rt: HostRuntime) -> Result<(), Fail> {
    check_cells(&rt, QUADTREE, &QUADTREE_CELLS)
}

#[test]
fn cells_of_an_octree(rt: HostRuntime) -> Result<(), Fail> {
    check_cells(&rt, OCTREE, &OCTREE_CELLS)
}

fn check_cells<R: AllocGlobal + Abort>(rt: &R, tiling: &str, rows: &[Cell]) -> Result<(), Fail> {
    let base = Base::new(rt.alloc(), BASE)?;
    let document = document(rt.alloc(), &base, tiling, "")?;
    let root = root_of(&document, &base).ok_or("no implicit root")?;
    for (at, centre, axes, error) in rows {
        let place = place(*at);
        assert!(rt; root.has_place(place));
        assert_eq!(rt;
            volume_at(&root, place),
            box_of(*centre, *axes),
            "of {at:?}"
        );
        assert_eq!(rt; error_at(&root, place), *error, "of {at:?}");
    }
    Ok(())
}

fn point(x: i64, y: i64, z: i64) -> Point {
    Point { x, y, z }
}

fn box_of(centre: (i64, i64, i64), axes: (i64, i64, i64)) -> Volume {
    let (x, y, z) = axes;
    Volume::Oriented {
        centre: point(centre.0, centre.1, centre.2),
        axes: [point(x, 0, 0), point(0, y, 0), point(0, 0, z)],
    }
}
