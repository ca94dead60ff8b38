//! The contents of tiles.

ghost use Rattle.std.specs.Prelude.{◌≡◌, ◌≤◌, ◌<◌, ◌+◌, length};
ghost use Rattle.implicit_walk.specs.Places.{IsPlace};

use super::forest::{File, Forest};
use super::{At, BASE, QUADTREE, document, place, root_of};
use crate::{ImplicitRoot, Place, Presence, content_at, content_in, exists, subtree_at};
use std::alloc::{AllocError, Global};
use std::marker::Brand;
use std::process::Abort;
use std::sync::ledger::{Blank, Ledger};
use std::test::Fail;
use tile_types::Steps;
use tile_uri::{Address, Base};

/// Four contents. The first has bits of its own, the second and the third are everywhere, and the
/// fourth nowhere. The template of the third names no address.
const CONTENTS: &str = concat!(
    r#"{"uri":"c/{level}/{x}/{y}.glb"},{"uri":"d.json?{level}#{x}"},"#,
    r#"{"uri":"http://[{level}]/"},{"uri":"e.glb"}"#
);

static FILES: [File; 2] = [
    ("http://tiles/s/0.0.0", Some([0b01011, 0b01010, 0b0001])),
    ("http://tiles/s/2.0.0", Some([0b00101, 0b00100, 0])),
];

/// A tile, which of its contents, and its address.
type Row = (At, u32, Option<&'static str>);

static ROWS: [Row; 9] = [
    ((0, 0, 0, 0), 0, None),
    ((0, 0, 0, 0), 1, Some("http://tiles/d.json?0#0")),
    ((0, 0, 0, 0), 2, None),
    ((0, 0, 0, 0), 3, None),
    ((1, 0, 0, 0), 0, Some("http://tiles/c/1/0/0.glb")),
    ((1, 0, 1, 0), 0, Some("http://tiles/c/1/0/1.glb")),
    ((2, 0, 0, 0), 0, None),
    ((3, 1, 0, 0), 0, Some("http://tiles/c/3/1/0.glb")),
    ((3, 1, 0, 0), 1, Some("http://tiles/d.json?3#1")),
];

#[test]
fn contents_of_tiles(rt: HostRuntime) -> Result<(), Fail> {
    let base = Base::new(rt.alloc(), BASE)?;
    let document = document(rt.alloc(), &base, QUADTREE, CONTENTS)?;
    let root = root_of(&document, &base).ok_or("no implicit root")?;
    let forest = Forest::new(rt.alloc(), root.part(), &FILES)?;
    check_rows::<HostRuntime, Brand>(&rt, &root, &forest, &ROWS, Blank::new(1))
}

fn check_rows<R: AllocGlobal + Abort, L: Ledger>(
    rt: &R,
    root: &ImplicitRoot,
    forest: &Forest,
    rows: &[Row],
    blank: Blank,
) -> Result<(), Fail>
    requires name { blank.name ≡ L.name }
    requires parts { blank.parts ≡ L.parts }
    requires some { 0 < L.parts }
{
    let mut steps = Steps::<L>::new(blank);
    for (at, which, expected) in rows {
        let place = place(*at);
        assert!(rt; root.has_place(place));
        assert!(rt; (*which as usize) < root.part().contents().len());
        let content = content_of(rt.alloc(), root, forest, place, *which, &mut steps)?;
        assert_eq!(rt; text_of(&content), *expected, "of {at:?}, {which}");
        let again = content_below(rt.alloc(), root, forest, place, *which, &mut steps)?;
        assert_eq!(rt; text_of(&again), *expected, "of {at:?}, {which}");
    }
    Ok(())
}

fn text_of(address: &Option<Address>) -> Option<&str> {
    Some(address.as_ref()?.text().as_str())
}

/// The content of a tile. It takes three steps at most: two for the tile, and one for the content.
fn content_of<L: Ledger>(
    alloc: Global,
    root: &ImplicitRoot,
    forest: &Forest,
    at: Place,
    which: u32,
    steps: &mut Steps<L>,
) -> Result<Option<Address>, AllocError>
    requires place { IsPlace root.now.part at }
    requires which { which < length root.now.part.contents }
    ensures { steps.new ≤ steps.old + 3 }
{
    match exists(alloc, root, forest, at, steps)? {
        Presence::Tile => content_at(alloc, root, forest, at, which, steps),
        Presence::No => Ok(None),
        Presence::Waiting(_) => Ok(None),
    }
}

/// The same where the subtree is at hand, in one step.
fn content_below<L: Ledger>(
    alloc: Global,
    root: &ImplicitRoot,
    forest: &Forest,
    at: Place,
    which: u32,
    steps: &mut Steps<L>,
) -> Result<Option<Address>, AllocError>
    requires place { IsPlace root.now.part at }
    requires which { which < length root.now.part.contents }
    ensures { steps.new ≤ steps.old + 1 }
{
    match subtree_at(alloc, root, forest, at)? {
        Some(subtree) => content_in(alloc, root, subtree, at, which, steps),
        None => Ok(None),
    }
}
