//! Which places there are, which numbers they have, and which subtree each is in.

use super::{At, BASE, DEEP, OCTREE, QUADTREE, document, kind_of, place, root_of};
use crate::{Place, begins_subtree, subtree_of, tile_number};
use std::process::Abort;
use std::test::Fail;
use tile_uri::Base;

/// A place, its number in its subtree, whether it begins one, and the address of the subtree.
type Row = (At, u64, bool, &'static str);

static IN_A_QUADTREE: [Row; 8] = [
    ((0, 0, 0, 0), 0, false, "http://tiles/s/0.0.0"),
    ((1, 0, 0, 0), 1, false, "http://tiles/s/0.0.0"),
    ((1, 1, 0, 0), 2, false, "http://tiles/s/0.0.0"),
    ((1, 0, 1, 0), 3, false, "http://tiles/s/0.0.0"),
    ((2, 3, 1, 0), 0, true, "http://tiles/s/2.3.1"),
    ((3, 6, 3, 0), 3, false, "http://tiles/s/2.3.1"),
    ((3, 7, 3, 0), 4, false, "http://tiles/s/2.3.1"),
    ((4, 15, 6, 0), 0, true, "http://tiles/s/4.15.6"),
];

static IN_AN_OCTREE: [Row; 5] = [
    ((0, 0, 0, 0), 0, false, "http://tiles/s/0/0/0/0"),
    ((1, 1, 0, 0), 2, false, "http://tiles/s/0/0/0/0"),
    ((1, 0, 1, 0), 3, false, "http://tiles/s/0/0/0/0"),
    ((1, 1, 0, 1), 6, false, "http://tiles/s/0/0/0/0"),
    ((2, 2, 1, 3), 0, true, "http://tiles/s/2/2/1/3"),
];

/// On level 5 the place is 22 = 10110 and 13 = 01101. Without two digits each that is 5 and 3, where
/// its subtree begins; the digits are 10 and 01, so the number is 5 + 6.
static IN_A_DEEP_QUADTREE: [Row; 4] = [
    ((2, 3, 1, 0), 12, false, "http://tiles/0-0-0"),
    ((5, 22, 13, 0), 11, false, "http://tiles/3-5-3"),
    (
        (29, 536_870_911, 0, 0),
        10,
        false,
        "http://tiles/27-134217727-0",
    ),
    (
        (27, 134_217_727, 1, 0),
        0,
        true,
        "http://tiles/27-134217727-1",
    ),
];

#[test]
fn numbers_in_a_quadtree(rt: HostRuntime) -> Result<(), Fail> {
    check_numbers(&rt, QUADTREE, &IN_A_QUADTREE)
}

#[test]
fn numbers_in_an_octree(rt: HostRuntime) -> Result<(), Fail> {
    check_numbers(&rt, OCTREE, &IN_AN_OCTREE)
}

#[test]
fn numbers_in_a_deep_quadtree(rt: HostRuntime) -> Result<(), Fail> {
    check_numbers(&rt, DEEP, &IN_A_DEEP_QUADTREE)
}

fn check_numbers<R: AllocGlobal + Abort>(rt: &R, tiling: &str, rows: &[Row]) -> Result<(), Fail> {
    let base = Base::new(rt.alloc(), BASE)?;
    let document = document(rt.alloc(), &base, tiling, "")?;
    let root = root_of(&document, &base).ok_or("no implicit root")?;
    for (at, number, begins, address) in rows {
        let place = place(*at);
        assert!(rt; root.has_place(place));
        assert_eq!(rt; tile_number(&root, place), *number, "of {at:?}");
        assert_eq!(rt; begins_subtree(&root, place), *begins, "of {at:?}");
        let key = subtree_of(rt.alloc(), &root, place)?.ok_or("no key")?;
        assert_eq!(rt; key.address.as_str(), *address, "of {at:?}");
        assert!(rt; key.kind == kind_of(root.part()));
    }
    Ok(())
}

/// A place, and whether there is one.
type Limit = (At, bool);

static QUADTREE_LIMITS: [Limit; 9] = [
    ((0, 0, 0, 0), true),
    ((0, 1, 0, 0), false),
    ((0, 0, 0, 1), false),
    ((29, 536_870_911, 536_870_911, 0), true),
    ((29, 536_870_912, 0, 0), false),
    ((29, 0, 536_870_912, 0), false),
    ((29, 0, 0, 1), false),
    ((30, 0, 0, 0), false),
    ((255, 4_294_967_295, 4_294_967_295, 0), false),
];

#[test]
fn places_of_a_deep_quadtree(rt: HostRuntime) -> Result<(), Fail> {
    check_places(&rt, DEEP, &QUADTREE_LIMITS)
}

/// An octree of thirty levels.
const DEEP_OCTREE: &str = concat!(
    r#""subdivisionScheme":"OCTREE","subtreeLevels":8,"availableLevels":30,"#,
    r#""subtrees":{"uri":"{level}-{x}-{y}-{z}"}"#
);

static OCTREE_LIMITS: [Limit; 6] = [
    ((0, 0, 0, 0), true),
    ((0, 0, 0, 1), false),
    ((29, 536_870_911, 536_870_911, 536_870_911), true),
    ((29, 0, 0, 536_870_912), false),
    ((28, 0, 268_435_456, 0), false),
    ((30, 0, 0, 0), false),
];

#[test]
fn places_of_a_deep_octree(rt: HostRuntime) -> Result<(), Fail> {
    check_places(&rt, DEEP_OCTREE, &OCTREE_LIMITS)
}

fn check_places<R: AllocGlobal + Abort>(rt: &R, tiling: &str, rows: &[Limit]) -> Result<(), Fail> {
    let base = Base::new(rt.alloc(), BASE)?;
    let document = document(rt.alloc(), &base, tiling, "")?;
    let root = root_of(&document, &base).ok_or("no implicit root")?;
    for (at, expected) in rows {
        assert_eq!(rt; root.has_place(place(*at)), *expected, "of {at:?}");
    }
    Ok(())
}

#[test]
fn places_above(rt: HostRuntime) {
    assert_eq!(rt; place((0, 0, 0, 0)), Place::root());
    assert_eq!(rt; place((5, 22, 13, 9)).above(0), place((5, 22, 13, 9)));
    assert_eq!(rt; place((5, 22, 13, 9)).above(2), place((3, 5, 3, 2)));
    assert_eq!(rt; place((5, 22, 13, 9)).above(5), Place::root());
}
