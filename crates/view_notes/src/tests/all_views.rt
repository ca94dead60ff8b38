//! Two views over a root of content `a`, which is replaced by its children `b` and `c`. The first is
//! so high that the root is good enough: it doesn't visit the children.

use crate::tests::shelf::Shelf;
use crate::tests::{addresses, fan_of, notes_at};
use crate::{
    Change, ViewNotes, all_become_absent, all_become_resident, all_go, all_go_each, any_keeps,
    wanted_by,
};
use std::alloc::{AllocError, Global};
use std::test::Fail;
use tile_types::{Refine, Text};

/// The notes of both views, while these contents are resident.
fn both_views(alloc: Global, resident: &str) -> Result<Vec<ViewNotes>, Fail> {
    let mut tree = fan_of(alloc, Refine::Replace, &["b", "c"])?;
    let shelf = Shelf::new(alloc, resident, "")?;
    let mut views = Vec::new(alloc);
    views.push(notes_at(alloc, &mut tree, &shelf, 100_000_000)?)?;
    views.push(notes_at(alloc, &mut tree, &shelf, 10_000)?)?;
    Ok(views)
}

#[test]
fn no_view_keeps_nothing(rt: HostRuntime) -> Result<(), Fail> {
    assert!(rt; !any_keeps(&[], &Text::new(rt.alloc(), "a")?));
    Ok(())
}

#[test]
fn a_content_is_kept_where_the_second_view_keeps_it(rt: HostRuntime) -> Result<(), Fail> {
    let alloc = rt.alloc();
    let views = both_views(alloc, "b c")?;
    let address = Text::new(alloc, "b")?;
    let above = views.first().ok_or("no view")?;
    let near = views.last().ok_or("no view")?;
    assert!(rt; !above.keeps(&address));
    assert!(rt; near.keeps(&address));
    assert!(rt; any_keeps(&views, &address));
    assert!(rt; any_keeps(&views, &Text::new(alloc, "a")?));
    assert!(rt; !any_keeps(&views, &Text::new(alloc, "d")?));
    Ok(())
}

/// What is resident before, what becomes of which contents, what is resident and absent behind it,
/// whether no tile leaves a missing content, and what both views want then.
struct Row {
    before: &'static str,
    change: Change,
    changed: &'static [&'static str],
    resident: &'static str,
    absent: &'static str,
    none_leaves: bool,
    wanted: &'static str,
}

static ROWS: [Row; 7] = [
    // The last child overtakes its parent, which the first view wants still.
    Row {
        before: "b",
        change: Change::Resident,
        changed: &["c"],
        resident: "b c",
        absent: "",
        none_leaves: false,
        wanted: "a ",
    },
    Row {
        before: "a b",
        change: Change::Resident,
        changed: &["c"],
        resident: "a b c",
        absent: "",
        none_leaves: true,
        wanted: "",
    },
    Row {
        before: "b c",
        change: Change::Absent,
        changed: &["a"],
        resident: "b c",
        absent: "a",
        none_leaves: true,
        wanted: "",
    },
    // The last child is absent before its parent comes.
    Row {
        before: "b",
        change: Change::Absent,
        changed: &["c"],
        resident: "b",
        absent: "c",
        none_leaves: false,
        wanted: "a ",
    },
    Row {
        before: "a b c",
        change: Change::Gone,
        changed: &["b"],
        resident: "a c",
        absent: "",
        none_leaves: true,
        wanted: "b ",
    },
    Row {
        before: "a b c",
        change: Change::Gone,
        changed: &["c", "a"],
        resident: "b",
        absent: "",
        none_leaves: true,
        wanted: "a c ",
    },
    Row {
        before: "a b c",
        change: Change::Gone,
        changed: &["a", "b", "c"],
        resident: "",
        absent: "",
        none_leaves: true,
        wanted: "a b c ",
    },
];

/// The texts of these addresses.
fn texts(alloc: Global, addresses: &[&str]) -> Result<Vec<Text>, AllocError> {
    let mut texts = Vec::new(alloc);
    for address in addresses {
        texts.push(Text::new(alloc, *address)?)?;
    }
    Ok(texts)
}

/// What the notes of both views answer when the contents change.
fn followed(views: &mut [ViewNotes], changed: &[Text], change: Change, behind: &Shelf) -> bool {
    let Some(first) = changed.first() else {
        return true;
    };
    match change {
        Change::Resident => return all_become_resident(views, first, behind),
        Change::Absent => return all_become_absent(views, first, behind),
        Change::Gone => {}
    }
    if changed.len() == 1 {
        all_go(views, first);
    } else {
        all_go_each(views, changed);
    }
    true
}

/// What the notes of both views answer, and the addresses that both want then.
fn outcome(alloc: Global, row: &Row) -> Result<(bool, String), Fail> {
    let mut views = both_views(alloc, row.before)?;
    let changed = texts(alloc, row.changed)?;
    let behind = Shelf::new(alloc, row.resident, row.absent)?;
    let none_leaves = followed(&mut views, &changed, row.change, &behind);
    let wants = wanted_by(alloc, &views, &behind)?;
    Ok((none_leaves, addresses(alloc, &wants)?))
}

#[test]
fn both_views_follow(rt: HostRuntime) -> Result<(), Fail> {
    for row in &ROWS {
        let (none_leaves, wanted) = outcome(rt.alloc(), row)?;
        assert_eq!(rt; none_leaves, row.none_leaves, "behind {}", row.before);
        assert_eq!(rt; wanted.as_str(), row.wanted, "behind {}", row.before);
    }
    Ok(())
}

#[test]
fn of_no_view_nothing_leaves(rt: HostRuntime) -> Result<(), Fail> {
    let alloc = rt.alloc();
    let shelf = Shelf::new(alloc, "a", "")?;
    assert!(rt; all_become_resident(&mut [], &Text::new(alloc, "a")?, &shelf));
    Ok(())
}
