//! Which tiles there are.

ghost use Rattle.std.specs.Prelude.{◌≡◌, ◌≤◌, ◌<◌, ◌+◌};
ghost use Rattle.implicit_walk.specs.Places.{IsPlace};

use super::forest::{File, Forest};
use super::{At, BASE, OCTREE, QUADTREE, document, kind_of, place, root_of};
use crate::{ImplicitRoot, Place, Presence, exists, exists_below, subtree_at};
use std::alloc::{AllocError, Global};
use std::marker::Brand;
use std::process::Abort;
use std::sync::ledger::{Blank, Ledger};
use std::test::Fail;
use tile_types::{Kind, Steps};
use tile_uri::Base;

/// A place, and what is answered there: "tile", "no", or the address of the subtree to wait for.
type Row = (At, &'static str);

/// Two levels in one subtree, whose tiles of the numbers 0, 1 and 3 are there.
const ONE_SUBTREE: &str = concat!(
    r#""subdivisionScheme":"QUADTREE","subtreeLevels":2,"availableLevels":2,"#,
    r#""subtrees":{"uri":"s/{level}.{x}.{y}.subtree"}"#
);

static ONE_FILE: [File; 1] = [("http://tiles/s/0.0.0.subtree", Some([0x0b, 0, 0]))];

static IN_ONE_SUBTREE: [Row; 5] = [
    ((0, 0, 0, 0), "tile"),
    ((1, 0, 0, 0), "tile"),
    ((1, 1, 0, 0), "no"),
    ((1, 0, 1, 0), "tile"),
    ((1, 1, 1, 0), "no"),
];

#[test]
fn tiles_of_one_subtree(rt: HostRuntime) -> Result<(), Fail> {
    check_presences(&rt, ONE_SUBTREE, &ONE_FILE, &IN_ONE_SUBTREE)
}

static NOTHING_LOADED: [Row; 4] = [
    ((0, 0, 0, 0), "http://tiles/s/0.0.0"),
    ((1, 1, 1, 0), "http://tiles/s/0.0.0"),
    // The child subtree has no bit yet.
    ((2, 0, 0, 0), "no"),
    ((3, 1, 0, 0), "http://tiles/s/2.0.0"),
];

#[test]
fn before_subtrees_are_loaded(rt: HostRuntime) -> Result<(), Fail> {
    check_presences(&rt, QUADTREE, &[], &NOTHING_LOADED)
}

static LOST: [Row; 2] = [((0, 0, 0, 0), "no"), ((1, 1, 1, 0), "no")];

#[test]
fn below_a_lost_subtree(rt: HostRuntime) -> Result<(), Fail> {
    check_presences(&rt, QUADTREE, &[("http://tiles/s/0.0.0", None)], &LOST)
}

/// The subtrees of a quadtree. The child subtrees of the numbers 0, 2, 3, 4 and 15 are there.
static FILES: [File; 5] = [
    ("http://tiles/s/0.0.0", Some([0b11111, 0, 0x801d])),
    // Of the child subtrees only that of number 6 is there.
    ("http://tiles/s/2.0.0", Some([0b00101, 0, 0x0040])),
    ("http://tiles/s/2.1.0", Some([0b11111, 0, 0])),
    ("http://tiles/s/2.0.1", Some([0b11110, 0, 0])),
    ("http://tiles/s/2.2.0", None),
];

static CHILD_SUBTREES: [Row; 18] = [
    ((0, 0, 0, 0), "tile"),
    ((1, 1, 1, 0), "tile"),
    ((2, 0, 0, 0), "tile"),
    // Its subtree is loaded, and all tiles are there, but the subtree above has no bit of it.
    ((2, 1, 0, 0), "no"),
    // Neither is this one, which nobody waits for.
    ((2, 0, 2, 0), "no"),
    // The first bit of its own subtree isn't set.
    ((2, 0, 1, 0), "no"),
    ((2, 1, 1, 0), "http://tiles/s/2.1.1"),
    ((2, 2, 0, 0), "no"),
    ((2, 3, 3, 0), "http://tiles/s/2.3.3"),
    // Further levels of these.
    ((3, 0, 0, 0), "no"),
    ((3, 1, 0, 0), "tile"),
    ((3, 1, 1, 0), "no"),
    ((3, 2, 2, 0), "http://tiles/s/2.1.1"),
    ((3, 4, 0, 0), "no"),
    ((4, 0, 0, 0), "no"),
    ((4, 2, 1, 0), "http://tiles/s/4.2.1"),
    ((4, 3, 1, 0), "no"),
    ((4, 4, 4, 0), "no"),
];

#[test]
fn tiles_of_child_subtrees(rt: HostRuntime) -> Result<(), Fail> {
    check_presences(&rt, QUADTREE, &FILES, &CHILD_SUBTREES)
}

/// The subtrees of an octree. The child subtrees of the numbers 44 and 45 are there.
static OCTREE_FILES: [File; 2] = [
    ("http://tiles/s/0/0/0/0", Some([0x041, 0, 0x3000_0000_0000])),
    ("http://tiles/s/2/2/0/3", Some([0x001, 0, 0])),
];

static IN_AN_OCTREE: [Row; 7] = [
    ((0, 0, 0, 0), "tile"),
    ((1, 1, 0, 1), "tile"),
    ((1, 0, 1, 1), "no"),
    ((1, 1, 0, 0), "no"),
    ((2, 2, 0, 3), "tile"),
    ((2, 3, 0, 3), "http://tiles/s/2/3/0/3"),
    ((2, 2, 1, 3), "no"),
];

#[test]
fn tiles_of_an_octree(rt: HostRuntime) -> Result<(), Fail> {
    check_presences(&rt, OCTREE, &OCTREE_FILES, &IN_AN_OCTREE)
}

/// Its template names no address.
const NAMELESS: &str = concat!(
    r#""subdivisionScheme":"QUADTREE","subtreeLevels":2,"availableLevels":2,"#,
    r#""subtrees":{"uri":"http://[{level}]/"}"#
);

#[test]
fn subtrees_without_an_address(rt: HostRuntime) -> Result<(), Fail> {
    check_presences(&rt, NAMELESS, &[], &LOST)
}

/// Compares what is answered at each place, where these subtrees are at hand.
fn check_presences<R: AllocGlobal + Abort>(
    rt: &R,
    tiling: &str,
    files: &[File],
    rows: &[Row],
) -> Result<(), Fail> {
    let base = Base::new(rt.alloc(), BASE)?;
    let document = document(rt.alloc(), &base, tiling, "")?;
    let root = root_of(&document, &base).ok_or("no implicit root")?;
    let forest = Forest::new(rt.alloc(), root.part(), files)?;
    check_rows::<R, Brand>(rt, &root, &forest, rows, Blank::new(1))
}

fn check_rows<R: AllocGlobal + Abort, L: Ledger>(
    rt: &R,
    root: &ImplicitRoot,
    forest: &Forest,
    rows: &[Row],
    blank: Blank,
) -> Result<(), Fail>
    requires name { blank.name ≡ L.name }
    requires parts { blank.parts ≡ L.parts }
    requires some { 0 < L.parts }
{
    let mut steps = Steps::<L>::new(blank);
    for (at, expected) in rows {
        let at = place(*at);
        assert!(rt; root.has_place(at));
        let presence = presence_at(rt.alloc(), root, forest, at, &mut steps)?;
        let word = word_of(&presence, kind_of(root.part()));
        assert_eq!(rt; word, *expected, "at {at:?}");
        if at.level > 0
            && let Some(again) = presence_below(rt.alloc(), root, forest, at, &mut steps)?
        {
            assert_eq!(rt; again, presence, "at {at:?}");
        }
    }
    Ok(())
}

/// Whether there is a tile, which takes two steps at most.
fn presence_at<L: Ledger>(
    alloc: Global,
    root: &ImplicitRoot,
    forest: &Forest,
    at: Place,
    steps: &mut Steps<L>,
) -> Result<Presence, AllocError>
    requires { IsPlace root.now.part at }
    ensures { steps.new ≤ steps.old + 2 }
{
    exists(alloc, root, forest, at, steps)
}

/// The same where the subtree of the parent is at hand.
fn presence_below<L: Ledger>(
    alloc: Global,
    root: &ImplicitRoot,
    forest: &Forest,
    at: Place,
    steps: &mut Steps<L>,
) -> Result<Option<Presence>, AllocError>
    requires place { IsPlace root.now.part at }
    requires level { 0 < at.level }
    ensures { steps.new ≤ steps.old + 2 }
{
    match subtree_at(alloc, root, forest, at.above(1))? {
        Some(subtree) => Ok(Some(exists_below(alloc, root, forest, subtree, at, steps)?)),
        None => Ok(None),
    }
}

fn word_of(presence: &Presence, kind: Kind) -> &str {
    match presence {
        Presence::No => "no",
        Presence::Tile => "tile",
        Presence::Waiting(key) if key.kind == kind => key.address.as_str(),
        Presence::Waiting(_) => "a key of another kind",
    }
}
