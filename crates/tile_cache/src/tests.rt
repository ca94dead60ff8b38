//! Courses of a cache whose outcomes are worked out by hand from the room rule, and what no clause
//! says: that calls succeed with ample memory, and that a shared content isn't copied.

ghost use Rattle.std.specs.Prelude.{◌≤◌};

use crate::{AdmitError, Cache, Evicted, KeepSet, Keeping, PIN_LIMIT};
use bytes::Bytes;
use content_digest::Content;
use std::alloc::{AllocError, Global};
use std::process::Abort;
use std::test::Fail;
use tile_types::Text;

/// What is done with an address, and what comes of it.
enum Step {
    /// So many bytes are admitted, and these are evicted.
    Admit(usize, &'static [&'static str]),
    /// So many bytes are squeezed beside so many that are held.
    Squeeze(usize, u64),
    Touch,
    Pin,
    Unpin,
}

/// A cache of a budget, the addresses to be kept, what is done, and the residents' bytes at the end.
struct Course {
    budget: u64,
    keep: &'static [&'static str],
    steps: &'static [(&'static str, Step)],
    bytes: u64,
}

/// An address that doesn't lie in the value of its text.
const LONG: &str = "http://tiles/districts/north/blocks/17/4.glb";

static COURSES: [Course; 9] = [
    // The least recently used goes, and a touch counts as a use.
    Course {
        budget: 4,
        keep: &[],
        steps: &[
            ("a", Step::Admit(1, &[])),
            ("b", Step::Admit(2, &[])),
            ("c", Step::Admit(1, &[])),
            ("a", Step::Touch),
            ("d", Step::Admit(2, &["b"])),
            ("b", Step::Admit(2, &["c", "a"])),
        ],
        bytes: 4,
    },
    // What is pinned stays until its last pin is taken off.
    Course {
        budget: 3,
        keep: &[],
        steps: &[
            ("a", Step::Admit(3, &[])),
            ("a", Step::Pin),
            ("a", Step::Pin),
            ("a", Step::Unpin),
            ("x", Step::Squeeze(1, 3)),
            ("a", Step::Unpin),
            ("x", Step::Admit(1, &["a"])),
        ],
        bytes: 1,
    },
    // A pinned one is passed, and the next ones go in its place.
    Course {
        budget: 3,
        keep: &[],
        steps: &[
            ("a", Step::Admit(1, &[])),
            ("b", Step::Admit(1, &[])),
            ("c", Step::Admit(1, &[])),
            ("b", Step::Pin),
            ("d", Step::Squeeze(3, 1)),
            ("d", Step::Admit(2, &["a", "c"])),
            ("b", Step::Unpin),
            ("e", Step::Admit(2, &["b", "d"])),
        ],
        bytes: 2,
    },
    // So is one that is to be kept.
    Course {
        budget: 4,
        keep: &["a", "x", LONG],
        steps: &[
            ("a", Step::Admit(1, &[])),
            (LONG, Step::Admit(2, &[])),
            ("b", Step::Admit(1, &[])),
            ("a", Step::Pin),
            ("c", Step::Squeeze(2, 3)),
            ("c", Step::Admit(1, &["b"])),
            ("x", Step::Admit(1, &["c"])),
            ("c", Step::Squeeze(1, 4)),
        ],
        bytes: 4,
    },
    // A budget that is smaller than one content.
    Course {
        budget: 2,
        keep: &[],
        steps: &[
            ("a", Step::Squeeze(3, 0)),
            ("b", Step::Admit(2, &[])),
            ("a", Step::Squeeze(3, 0)),
        ],
        bytes: 2,
    },
    // What fits exactly is admitted.
    Course {
        budget: 4,
        keep: &[],
        steps: &[
            ("a", Step::Admit(4, &[])),
            ("b", Step::Admit(4, &["a"])),
            ("a", Step::Admit(1, &["b"])),
            ("b", Step::Admit(3, &[])),
        ],
        bytes: 4,
    },
    // A content without bytes always fits, and goes only where more room is needed behind it.
    Course {
        budget: 1,
        keep: &[],
        steps: &[
            ("a", Step::Admit(0, &[])),
            ("b", Step::Admit(1, &[])),
            ("c", Step::Admit(0, &[])),
            ("d", Step::Admit(1, &["a", "b"])),
        ],
        bytes: 1,
    },
    // No budget at all.
    Course {
        budget: 0,
        keep: &[],
        steps: &[
            ("a", Step::Squeeze(1, 0)),
            ("a", Step::Admit(0, &[])),
            ("b", Step::Touch),
        ],
        bytes: 0,
    },
    // The greatest budget, and a long address that goes.
    Course {
        budget: u64::MAX,
        keep: &[],
        steps: &[(LONG, Step::Admit(7, &[])), ("a", Step::Admit(7, &[]))],
        bytes: 14,
    },
];

/// Keeps every content.
struct All;

impl Keeping for All {
    ghost use Rattle.std.specs.Prelude.{true};

    ghost keeps = { λ _ _. true };

    fn keeps(&self, _address: &Text) -> bool {
        true
    }
}

/// Keeps no content.
struct Nothing;

impl Keeping for Nothing {
    ghost use Rattle.std.specs.Prelude.{false};

    ghost keeps = { λ _ _. false };

    fn keeps(&self, _address: &Text) -> bool {
        false
    }
}

static BYTES: [u8; 8] = *b"contents";

/// A content of so many bytes.
fn content(alloc: Global, length: usize) -> Result<Content, AllocError>
    requires { length ≤ 8 }
{
    Ok(Content::new(Bytes::copy_from_slice(alloc, &BYTES[..length])?))
}

/// Admits so many bytes at an address where nothing is resident.
fn admit<K: Keeping>(
    rt: &impl Abort,
    alloc: Global,
    cache: &mut Cache,
    keep: &K,
    address: &Text,
    length: usize,
) -> Result<Evicted, AdmitError> {
    assert!(rt; length <= BYTES.len());
    assert!(rt; !cache.holds(address));
    cache.admit(alloc, address, content(alloc, length)?, keep)
}

/// Whether these are the addresses, in order.
fn are(found: &[Text], expected: &[&str]) -> bool {
    found.len() == expected.len()
        && found
            .iter()
            .zip(expected)
            .all(|(one, other)| one.as_str() == *other)
}

/// Admits so many bytes at an address, and compares what is evicted.
fn admitted<K: Keeping>(
    rt: &impl Abort,
    alloc: Global,
    cache: &mut Cache,
    keep: &K,
    address: &Text,
    length: usize,
    evicted: &[&str],
) {
    let found = admit(rt, alloc, cache, keep, address, length);
    assert!(rt; found.is_ok_and(|found| are(found.as_slice(), evicted)));
    assert!(rt; cache.holds(address));
}

/// Tries to admit so many bytes at an address, and compares the refusal.
fn squeezed<K: Keeping>(
    rt: &impl Abort,
    alloc: Global,
    cache: &mut Cache,
    keep: &K,
    address: &Text,
    length: usize,
    held: u64,
) {
    let found = admit(rt, alloc, cache, keep, address, length);
    let length = length as u64;
    assert_eq!(rt; found.err(), Some(AdmitError::Squeezed { held, length }));
    assert!(rt; !cache.holds(address));
}

/// Takes a step, and compares what comes of it.
fn take(
    rt: &impl Abort,
    alloc: Global,
    cache: &mut Cache,
    keep: &KeepSet,
    address: &Text,
    step: &Step,
) {
    match step {
        Step::Admit(length, evicted) => {
            admitted(rt, alloc, cache, keep, address, *length, evicted)
        }
        Step::Squeeze(length, held) => squeezed(rt, alloc, cache, keep, address, *length, *held),
        Step::Touch => cache.touch(address),
        Step::Pin => pin(rt, cache, address),
        Step::Unpin => unpin(rt, cache, address),
    }
}

fn pin(rt: &impl Abort, cache: &mut Cache, address: &Text) {
    let before = cache.pin_count(address);
    assert!(rt; cache.holds(address) && before < PIN_LIMIT);
    cache.pin(address);
    assert_eq!(rt; cache.pin_count(address), before + 1);
}

fn unpin(rt: &impl Abort, cache: &mut Cache, address: &Text) {
    let before = cache.pin_count(address);
    assert!(rt; before > 0);
    cache.unpin(address);
    assert_eq!(rt; cache.pin_count(address), before - 1);
}

fn run(rt: &impl Abort, alloc: Global, course: &Course) -> Result<(), Fail> {
    let mut cache = Cache::new(alloc, course.budget)?;
    let mut keep = KeepSet::new(alloc);
    for address in course.keep {
        keep.insert(Text::new(alloc, address)?)?;
    }
    for (address, step) in course.steps {
        take(
            rt,
            alloc,
            &mut cache,
            &keep,
            &Text::new(alloc, address)?,
            step,
        );
    }
    assert_eq!(rt; cache.resident_bytes(), course.bytes);
    Ok(())
}

#[test]
fn courses(rt: HostRuntime) -> Result<(), Fail> {
    for course in &COURSES {
        run(&rt, rt.alloc(), course)?;
    }
    Ok(())
}

/// Where every content is kept nothing goes, and so one that doesn't fit is squeezed.
#[test]
fn all_are_kept(rt: HostRuntime) -> Result<(), Fail> {
    let alloc = rt.alloc();
    let mut cache = Cache::new(alloc, 4)?;
    let (a, b) = (Text::new(alloc, "a")?, Text::new(alloc, LONG)?);
    admitted(&rt, alloc, &mut cache, &All, &a, 3, &[]);
    squeezed(&rt, alloc, &mut cache, &All, &b, 2, 3);
    admitted(&rt, alloc, &mut cache, &All, &b, 1, &[]);
    assert!(rt; cache.holds(&a));
    assert_eq!(rt; cache.resident_bytes(), 4);
    Ok(())
}

/// Where no content is kept all but the pinned ones go.
#[test]
fn none_is_kept(rt: HostRuntime) -> Result<(), Fail> {
    let alloc = rt.alloc();
    let mut cache = Cache::new(alloc, 4)?;
    let (a, b) = (Text::new(alloc, "a")?, Text::new(alloc, LONG)?);
    let c = Text::new(alloc, "c")?;
    admitted(&rt, alloc, &mut cache, &Nothing, &a, 2, &[]);
    admitted(&rt, alloc, &mut cache, &Nothing, &b, 2, &[]);
    pin(&rt, &mut cache, &a);
    squeezed(&rt, alloc, &mut cache, &Nothing, &c, 3, 2);
    admitted(&rt, alloc, &mut cache, &Nothing, &c, 2, &[LONG]);
    assert!(rt; cache.holds(&a) && !cache.holds(&b));
    assert_eq!(rt; cache.resident_bytes(), 4);
    Ok(())
}

#[test]
fn a_content_is_shared(rt: HostRuntime) -> Result<(), Fail> {
    let alloc = rt.alloc();
    let mut cache = Cache::new(alloc, 3)?;
    let address = Text::new(alloc, LONG)?;
    admit(&rt, alloc, &mut cache, &KeepSet::new(alloc), &address, 3)?;
    assert!(rt; cache.has_room(0) && !cache.has_room(1));
    let shared = cache.share(&address)?.ok_or("no content")?;
    assert_eq!(rt; shared.bytes().as_slice(), b"con".as_slice());
    // The cache and this owner have the one block.
    assert!(rt; !shared.bytes().is_unique());
    drop(cache);
    assert!(rt; shared.bytes().is_unique());
    Ok(())
}

#[test]
fn nothing_is_shared_elsewhere(rt: HostRuntime) -> Result<(), Fail> {
    let cache = Cache::new(rt.alloc(), 3)?;
    let address = Text::new(rt.alloc(), "a")?;
    assert!(rt; cache.share(&address)?.is_none());
    assert_eq!(rt; cache.pin_count(&address), 0);
    assert!(rt; cache.has_room(3) && !cache.has_room(4));
    Ok(())
}

/// Addresses in the order in which they are added, each with whether it is new.
static ADDED: [(&str, bool); 3] = [(LONG, true), ("a", true), (LONG, false)];

#[test]
fn addresses_to_keep(rt: HostRuntime) -> Result<(), Fail> {
    let alloc = rt.alloc();
    let mut keep = KeepSet::new(alloc);
    assert!(rt; keep.is_empty());
    for (address, is_new) in &ADDED {
        assert_eq!(rt; keep.insert(Text::new(alloc, address)?)?, *is_new);
    }
    assert_eq!(rt; keep.len(), 2);
    assert!(rt; keep.contains(&Text::new(alloc, LONG)?));
    assert!(rt; !keep.contains(&Text::new(alloc, "b")?));
    assert!(rt; keep.keeps(&Text::new(alloc, "a")?) && !keep.keeps(&Text::new(alloc, "b")?));
    keep.clear();
    assert!(rt; keep.is_empty());
    Ok(())
}
