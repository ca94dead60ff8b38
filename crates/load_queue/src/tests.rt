//! What no clause says: that wants are set where memory is ample. Beside it the answers of a queue,
//! row by row, worked out by hand.

use super::*;
use std::alloc::{AllocError, Global};
use std::process::Abort;
use std::test::Fail;
use tile_types::{Key, Kind, Order, Text, TileFacts, Want, WantList};

/// A want of the tests: its address, its distance in millimetres and its error in micrometres.
type Row = (&'static str, u64, u64);

/// What is done to a queue.
#[derive(Clone, Copy)]
enum Step {
    Drop(&'static str),
    Hide(&'static str),
    Show(&'static str),
}

/// Wants in an order, what is done to them, and the addresses that are then the best ones, each
/// dropped before the next.
type Course = (Order, &'static [Row], &'static [Step], &'static str);

const THREE: &[Row] = &[("a", 5, 10), ("b", 5, 20), ("c", 3, 0)];

const ALIKE: &[Row] = &[
    ("p", 7, 4),
    ("q", 7, 4),
    ("r", 2, 9),
    ("s", 2, 9),
    ("t", 7, 4),
    ("u", 9, 9),
    ("v", 2, 1),
];

/// The greatest distance is 2^40, the greatest error 2^50.
const GREATEST: &[Row] = &[
    ("e", 1_099_511_627_776, 0),
    ("f", 1_099_511_627_775, 1_125_899_906_842_624),
    ("g", 0, 1_125_899_906_842_623),
    ("h", 1_099_511_627_776, 1_125_899_906_842_624),
];

static COURSES: [Course; 16] = [
    (Order::Near, THREE, &[], "cab"),
    (Order::Coarse, THREE, &[], "bac"),
    (Order::Listed, THREE, &[], "abc"),
    (Order::Near, THREE, &[Step::Drop("c")], "ab"),
    (Order::Near, &[], &[], ""),
    (Order::Near, &[("a", 0, 0)], &[], "a"),
    (Order::Near, ALIKE, &[], "rsvpqtu"),
    (Order::Coarse, ALIKE, &[], "rsupqtv"),
    (Order::Listed, ALIKE, &[], "pqrstuv"),
    (Order::Near, GREATEST, &[], "gfeh"),
    (Order::Coarse, GREATEST, &[], "fhge"),
    (
        Order::Near,
        ALIKE,
        &[Step::Hide("r"), Step::Hide("v")],
        "spqtu",
    ),
    (
        Order::Near,
        ALIKE,
        &[Step::Hide("r"), Step::Show("r")],
        "rsvpqtu",
    ),
    (
        Order::Near,
        THREE,
        &[Step::Hide("c"), Step::Drop("c"), Step::Show("c")],
        "ab",
    ),
    (
        Order::Near,
        THREE,
        &[Step::Hide("c"), Step::Hide("a"), Step::Hide("b")],
        "",
    ),
    (
        Order::Near,
        THREE,
        &[Step::Drop("x"), Step::Hide("y"), Step::Show("b")],
        "cab",
    ),
];

fn content(alloc: Global, address: &str) -> Result<Key, AllocError> {
    Ok(Key {
        kind: Kind::Content,
        address: Text::new(alloc, address)?,
    })
}

fn wants_of(rt: &impl Abort, alloc: Global, rows: &[Row]) -> Result<WantList, AllocError> {
    let mut wants = WantList::new(alloc);
    for (address, distance, error) in rows {
        assert!(rt; *distance <= 1 << 40 && *error <= 1 << 50);
        wants.push(Want {
            key: content(alloc, address)?,
            facts: TileFacts {
                distance: *distance,
                error: *error,
            },
        })?;
    }
    Ok(wants)
}

fn queue_of(
    rt: &impl Abort,
    alloc: Global,
    order: Order,
    rows: &[Row],
) -> Result<RankedQueue<OrderRank>, AllocError> {
    let wants = wants_of(rt, alloc, rows)?;
    let mut queue = RankedQueue::new(alloc, order, OrderRank { order });
    assert!(rt; are_keys_distinct(alloc, &wants)?);
    queue.set_wants(alloc, wants)?;
    Ok(queue)
}

fn take_step(
    alloc: Global,
    queue: &mut RankedQueue<OrderRank>,
    step: Step,
) -> Result<(), AllocError> {
    match step {
        Step::Drop(address) => queue.drop_want(&content(alloc, address)?),
        Step::Hide(address) => queue.hide(&content(alloc, address)?),
        Step::Show(address) => queue.show(&content(alloc, address)?),
    }
    Ok(())
}

/// The addresses of the best wants, each dropped before the next; at most eight. So many of them
/// are shown.
fn bests(
    rt: &impl Abort,
    alloc: Global,
    queue: &mut RankedQueue<OrderRank>,
    shown: usize,
) -> Result<String, AllocError> {
    let mut addresses = String::new(alloc);
    for dropped in 0..8 {
        assert_eq!(rt; queue.shown_count(), shown.saturating_sub(dropped));
        let Some(best) = queue.best() else {
            break;
        };
        let key = best.key.copy(alloc)?;
        addresses.push_str(key.address.as_str())?;
        queue.drop_want(&key);
    }
    Ok(addresses)
}

#[test]
fn courses(rt: HostRuntime) -> Result<(), Fail> {
    let alloc = rt.alloc();
    for (order, wants, steps, addresses) in &COURSES {
        let mut queue = queue_of(&rt, alloc, *order, wants)?;
        assert!(rt; queue.order() == *order);
        for step in *steps {
            take_step(alloc, &mut queue, *step)?;
        }
        let found = bests(&rt, alloc, &mut queue, addresses.len())?;
        assert_eq!(rt; found.as_str(), *addresses);
        assert!(rt; queue.best().is_none() && queue.shown_count() == 0);
    }
    Ok(())
}

#[test]
fn keys_that_stand_twice(rt: HostRuntime) -> Result<(), Fail> {
    let alloc = rt.alloc();
    let twice: [Row; 3] = [("a", 1, 1), ("b", 1, 1), ("a", 2, 2)];
    assert!(rt; !are_keys_distinct(alloc, &wants_of(&rt, alloc, &twice)?)?);
    assert!(rt; are_keys_distinct(alloc, &wants_of(&rt, alloc, THREE)?)?);
    Ok(())
}

/// No wants are a list like any other, and end what was set before.
#[test]
fn no_wants(rt: HostRuntime) -> Result<(), Fail> {
    let alloc = rt.alloc();
    let mut queue = queue_of(&rt, alloc, Order::Near, THREE)?;
    queue.hide(&content(alloc, "a")?);
    assert_eq!(rt; queue.shown_count(), 2);
    let none = WantList::new(alloc);
    assert!(rt; are_keys_distinct(alloc, &none)?);
    queue.set_wants(alloc, none)?;
    assert!(rt; queue.best().is_none() && queue.shown_count() == 0);
    queue.show(&content(alloc, "a")?);
    assert!(rt; queue.best().is_none());
    Ok(())
}
