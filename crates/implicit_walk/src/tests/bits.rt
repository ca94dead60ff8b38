//! The bits of a subtree that is at hand, and the laws.

ghost use Rattle.std.specs.Prelude.{◌≡◌, ◌≤◌, ◌<◌, ◌+◌};
ghost use Rattle.implicit_walk.specs.Places.{IsPlace};

use super::forest::{File, Forest};
use super::{At, BASE, QUADTREE, document, place, root_of};
use crate::laws::{children_share_the_subtree, contents_by_the_subtree, tiles_have_their_bit};
use crate::{ImplicitRoot, Place, has_child_subtree, has_tile, subtree_at};
use std::alloc::{AllocError, Global};
use std::marker::Brand;
use std::process::Abort;
use std::sync::ledger::{Blank, Ledger};
use std::test::Fail;
use tile_types::Steps;
use tile_uri::Base;

/// Its tiles are those of the numbers 0, 1 and 3, its child subtrees those of 6 and 15.
static FILES: [File; 1] = [("http://tiles/s/0.0.0", Some([0b01011, 0, 0x8040]))];

/// A place, and a bit; None where its subtree isn't at hand.
type Row = (At, Option<bool>);

static TILES: [Row; 5] = [
    ((0, 0, 0, 0), Some(true)),
    ((1, 0, 0, 0), Some(true)),
    ((1, 1, 0, 0), Some(false)),
    ((1, 0, 1, 0), Some(true)),
    ((2, 2, 1, 0), None),
];

/// These are by the subtree of the parent.
static CHILD_SUBTREES: [Row; 4] = [
    ((2, 2, 1, 0), Some(true)),
    ((2, 3, 3, 0), Some(true)),
    ((2, 1, 2, 0), Some(false)),
    ((4, 2, 1, 0), None),
];

#[test]
fn bits_of_a_subtree(rt: HostRuntime) -> Result<(), Fail> {
    let base = Base::new(rt.alloc(), BASE)?;
    let document = document(rt.alloc(), &base, QUADTREE, "")?;
    let root = root_of(&document, &base).ok_or("no implicit root")?;
    let forest = Forest::new(rt.alloc(), root.part(), &FILES)?;
    check_rows::<HostRuntime, Brand>(&rt, &root, &forest, Blank::new(1))
}

fn check_rows<R: AllocGlobal + Abort, L: Ledger>(
    rt: &R,
    root: &ImplicitRoot,
    forest: &Forest,
    blank: Blank,
) -> Result<(), Fail>
    requires name { blank.name ≡ L.name }
    requires parts { blank.parts ≡ L.parts }
    requires some { 0 < L.parts }
{
    let mut steps = Steps::<L>::new(blank);
    for (at, bit) in &TILES {
        let place = place(*at);
        assert!(rt; root.has_place(place));
        let met = tile_bit(rt.alloc(), root, forest, place, &mut steps)?;
        assert_eq!(rt; met, *bit, "of {at:?}");
    }
    for (at, bit) in &CHILD_SUBTREES {
        let place = place(*at);
        assert!(rt; root.has_place(place) && place.level > 0);
        let met = child_bit(rt.alloc(), root, forest, place, &mut steps)?;
        assert_eq!(rt; met, *bit, "of {at:?}");
    }
    Ok(())
}

/// The bit of a tile, where its subtree is at hand.
fn tile_bit<L: Ledger>(
    alloc: Global,
    root: &ImplicitRoot,
    forest: &Forest,
    at: Place,
    steps: &mut Steps<L>,
) -> Result<Option<bool>, AllocError>
    requires { IsPlace root.now.part at }
    ensures { steps.new ≤ steps.old + 1 }
{
    match subtree_at(alloc, root, forest, at)? {
        Some(subtree) => Ok(Some(has_tile(root, subtree, at, steps))),
        None => Ok(None),
    }
}

/// The bit of a child subtree, where the subtree above is at hand.
fn child_bit<L: Ledger>(
    alloc: Global,
    root: &ImplicitRoot,
    forest: &Forest,
    at: Place,
    steps: &mut Steps<L>,
) -> Result<Option<bool>, AllocError>
    requires place { IsPlace root.now.part at }
    requires level { 0 < at.level }
    ensures { steps.new ≤ steps.old + 1 }
{
    match subtree_at(alloc, root, forest, at.above(1))? {
        Some(subtree) => Ok(Some(has_child_subtree(root, subtree, at, steps))),
        None => Ok(None),
    }
}

#[test]
fn the_laws(_rt: HostRuntime) {
    children_share_the_subtree();
    tiles_have_their_bit();
    contents_by_the_subtree();
}
