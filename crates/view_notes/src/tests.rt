//! What no clause says. Expected values are worked out by hand from the definitions, for a root of
//! content `a` whose error is so great that it wants its children.

mod all_views;
mod fan;
mod shelf;

use crate::tests::fan::{Fan, FanTile};
use crate::tests::shelf::Shelf;
use crate::{Change, ViewNotes, look_at, wanted_by};
use cut_core::CutError;
use error_test::View;
use expanded_tree::NodeFacts;
use fixed_geometry::Point;
use std::alloc::{AllocError, Global};
use std::test::Fail;
use tile_types::{Refine, Text, WantList};
use volumes::Volume;

/// A tile of this error, in micrometres, with a sphere of 5 metres, and the contents of these
/// addresses.
fn tile(
    alloc: Global,
    error: u32,
    refine: Refine,
    addresses: &str,
) -> Result<Option<FanTile>, AllocError> {
    let volume = Volume::Ball {
        centre: Point { x: 0, y: 0, z: 0 },
        radius: 5000,
    };
    let facts = NodeFacts {
        volume: Some(volume),
        request: None,
        error: u64::from(error),
        refine,
        external: false,
    };
    FanTile::new(alloc, facts, addresses)
}

/// A root of content `a`, whose children have these contents.
fn fan_of(alloc: Global, refine: Refine, children: &[&str]) -> Result<Fan, Fail> {
    let root = tile(alloc, 100_000_000, refine, "a")?.ok_or("too many contents")?;
    let mut tiles = Vec::new(alloc);
    for addresses in children {
        let child = tile(alloc, 0, refine, *addresses)?;
        tiles.push(child.ok_or("too many contents")?)?;
    }
    Ok(Fan::new(alloc, root, tiles).ok_or("too many children")?)
}

/// A view from above, at this height in millimetres.
fn view(z: i64) -> Result<View, Fail> {
    Ok(
        View::new(Point { x: 0, y: 0, z }, 1000, 1, 2, 256, &[])
            .ok()
            .ok_or("no view")?,
    )
}

/// The notes of a view at this height, while these contents are there.
fn notes_at(alloc: Global, tree: &mut Fan, shelf: &Shelf, z: i64) -> Result<ViewNotes, Fail> {
    let look = look_at(alloc, tree, shelf, &view(z)?);
    Ok(look.ok().ok_or("no look")?.notes)
}

/// The addresses of the wants.
fn addresses(alloc: Global, wants: &WantList) -> Result<String, AllocError> {
    let mut text = String::new(alloc);
    for want in wants {
        text.push_str(want.key.address.as_str())?;
        text.push_str(" ")?;
    }
    Ok(text)
}

/// A content that changes, what is resident before, what is resident and absent behind it, whether
/// no tile leaves a missing content, and what is wanted then.
struct Row {
    refine: Refine,
    children: &'static [&'static str],
    before: &'static str,
    address: &'static str,
    change: Change,
    resident: &'static str,
    absent: &'static str,
    none_leaves: bool,
    wanted: &'static str,
}

/// What the notes answer when the content changes, and the addresses that are wanted then.
fn outcome(alloc: Global, row: &Row) -> Result<(bool, String), Fail> {
    let mut tree = fan_of(alloc, row.refine, row.children)?;
    let before = Shelf::new(alloc, row.before, "")?;
    let mut notes = notes_at(alloc, &mut tree, &before, 10_000)?;
    let behind = Shelf::new(alloc, row.resident, row.absent)?;
    let address = Text::new(alloc, row.address)?;
    let none_leaves = match row.change {
        Change::Resident => notes.becomes_resident(&address, &behind),
        Change::Absent => notes.becomes_absent(&address, &behind),
        Change::Gone => {
            notes.goes(&address);
            true
        }
    };
    let wants = notes.wants(alloc, &behind)?;
    Ok((none_leaves, addresses(alloc, &wants)?))
}

static ROWS: [Row; 12] = [
    Row {
        refine: Refine::Replace,
        children: &["b", "c"],
        before: "",
        address: "b",
        change: Change::Resident,
        resident: "b",
        absent: "",
        none_leaves: true,
        wanted: "a c ",
    },
    // The last child overtakes its parent.
    Row {
        refine: Refine::Replace,
        children: &["b", "c"],
        before: "b",
        address: "c",
        change: Change::Resident,
        resident: "b c",
        absent: "",
        none_leaves: false,
        wanted: "",
    },
    Row {
        refine: Refine::Replace,
        children: &["b", "c"],
        before: "a b",
        address: "c",
        change: Change::Resident,
        resident: "a b c",
        absent: "",
        none_leaves: true,
        wanted: "",
    },
    Row {
        refine: Refine::Add,
        children: &["b", "c"],
        before: "b",
        address: "c",
        change: Change::Resident,
        resident: "b c",
        absent: "",
        none_leaves: true,
        wanted: "a ",
    },
    // One tile names it three times.
    Row {
        refine: Refine::Replace,
        children: &["b b b", "c"],
        before: "",
        address: "b",
        change: Change::Resident,
        resident: "b",
        absent: "",
        none_leaves: true,
        wanted: "a c ",
    },
    // Ten tiles name it.
    Row {
        refine: Refine::Replace,
        children: &["b", "b", "b", "b", "b", "b", "b", "b", "b", "b"],
        before: "",
        address: "b",
        change: Change::Resident,
        resident: "b",
        absent: "",
        none_leaves: false,
        wanted: "",
    },
    Row {
        refine: Refine::Replace,
        children: &["b", "c"],
        before: "",
        address: "a",
        change: Change::Absent,
        resident: "",
        absent: "a",
        none_leaves: true,
        wanted: "b c ",
    },
    // What was shown is evicted.
    Row {
        refine: Refine::Replace,
        children: &["b", "c"],
        before: "b c",
        address: "b",
        change: Change::Gone,
        resident: "c",
        absent: "",
        none_leaves: true,
        wanted: "a b ",
    },
    // A child's content is absent behind its parent's coming.
    Row {
        refine: Refine::Replace,
        children: &["b", "c"],
        before: "a",
        address: "b",
        change: Change::Absent,
        resident: "a",
        absent: "b",
        none_leaves: true,
        wanted: "c ",
    },
    // The last child is absent before its parent comes.
    Row {
        refine: Refine::Replace,
        children: &["b", "c"],
        before: "b",
        address: "c",
        change: Change::Absent,
        resident: "b",
        absent: "c",
        none_leaves: false,
        wanted: "",
    },
    Row {
        refine: Refine::Add,
        children: &["b", "c"],
        before: "b",
        address: "a",
        change: Change::Absent,
        resident: "b",
        absent: "a",
        none_leaves: true,
        wanted: "c ",
    },
    Row {
        refine: Refine::Add,
        children: &["b", "c"],
        before: "a b c",
        address: "a",
        change: Change::Gone,
        resident: "b c",
        absent: "",
        none_leaves: true,
        wanted: "a ",
    },
];

#[test]
fn contents_come_and_go(rt: HostRuntime) -> Result<(), Fail> {
    for row in &ROWS {
        let (none_leaves, wanted) = outcome(rt.alloc(), row)?;
        assert_eq!(rt;
            none_leaves,
            row.none_leaves,
            "{} behind {}",
            row.address, row.before
        );
        assert_eq!(rt;
            wanted.as_str(),
            row.wanted,
            "{} behind {}",
            row.address,
            row.before
        );
    }
    Ok(())
}

#[test]
fn several_views_want_each_key_once(rt: HostRuntime) -> Result<(), Fail> {
    let alloc = rt.alloc();
    let mut tree = fan_of(alloc, Refine::Add, &["b", "a"])?;
    let shelf = Shelf::new(alloc, "c", "")?;
    let mut views = Vec::new(alloc);
    views.push(notes_at(alloc, &mut tree, &shelf, 100_000_000)?)?;
    views.push(notes_at(alloc, &mut tree, &shelf, 10_000)?)?;
    let wants = wanted_by(alloc, &views, &shelf)?;
    assert_eq!(rt; addresses(alloc, &wants)?.as_str(), "a b ");
    let alone = views[0].wants(alloc, &shelf)?;
    assert_eq!(rt; addresses(alloc, &alone)?.as_str(), "a ");
    Ok(())
}

#[test]
fn a_content_of_many_tiles_comes_and_goes(rt: HostRuntime) -> Result<(), Fail> {
    let alloc = rt.alloc();
    let nothing = Shelf::new(alloc, "", "")?;
    let there = Shelf::new(alloc, "b", "")?;
    let root = tile(alloc, 100_000_000, Refine::Replace, "a")?.ok_or("too many contents")?;
    let mut tiles = Vec::new(alloc);
    for _ in 0..10_000 {
        tiles.push(tile(alloc, 0, Refine::Replace, "b")?.ok_or("too many contents")?)?;
    }
    let mut tree = Fan::new(alloc, root, tiles).ok_or("too many children")?;
    let mut notes = notes_at(alloc, &mut tree, &nothing, 10_000)?;
    let address = Text::new(alloc, "b")?;
    assert!(rt; notes.keeps(&address));
    assert!(rt; !notes.becomes_resident(&address, &there));
    let wants = notes.wants(alloc, &there)?;
    assert_eq!(rt; addresses(alloc, &wants)?.as_str(), "");
    notes.goes(&address);
    let wants = notes.wants(alloc, &nothing)?;
    assert_eq!(rt; addresses(alloc, &wants)?.as_str(), "a b ");
    Ok(())
}

#[test]
fn too_many_nodes_are_not_noted(rt: HostRuntime) -> Result<(), Fail> {
    let alloc = rt.alloc();
    let shelf = Shelf::new(alloc, "", "")?;
    let root = tile(alloc, 100_000_000, Refine::Replace, "a")?.ok_or("too many contents")?;
    let mut tiles = Vec::new(alloc);
    for _ in 0..65_536 {
        tiles.push(tile(alloc, 0, Refine::Replace, "b")?.ok_or("too many contents")?)?;
    }
    let mut tree = Fan::new(alloc, root, tiles).ok_or("too many children")?;
    let look = look_at(alloc, &mut tree, &shelf, &view(10_000)?);
    assert_eq!(rt; look.err(), Some(CutError::TooLarge));
    let notes = ViewNotes::new(alloc);
    assert!(rt; !notes.keeps(&Text::new(alloc, "b")?));
    Ok(())
}
