//! Courses of an engine. Expected values are worked out by hand from the definitions.

use crate::{Core, LookError, OpenError, RetryError, TakeError};
use bytes::Bytes;
use doc_store::DOCUMENT_LIMIT;
use engine_state::{Entry, Gone};
use error_test::View;
use fixed_geometry::Point;
use loader_gate::Outcome;
use std::alloc::Global;
use std::process::Abort;
use std::test::Fail;
use tile_types::{Kind, Order};
use tile_uri::Base;
use tileset_schema::DocumentError;

/// A tile with one content.
const ONE: &str = r#"{"asset":{"version":"1.1"},"geometricError":9,"root":
    {"boundingVolume":{"sphere":[0,0,0,5]},"geometricError":0,"content":{"uri":"a.glb"}}}"#;

/// How many entries a journal of these tests may have.
const ROOM: u32 = 64;

/// What opening an engine with these bytes gives, whose journal may have so many entries.
fn open_with(
    rt: &impl Abort,
    alloc: Global,
    root: &str,
    room: u32,
) -> Result<Result<Core, OpenError>, Fail> {
    let base = Base::new(alloc, "http://tiles/")?;
    let address = base.resolve(alloc, "t.json")?;
    let bytes = Bytes::copy_from_slice(alloc, root.as_bytes())?;
    assert!(rt; bytes.len() <= DOCUMENT_LIMIT as usize);
    Ok(Core::open(alloc, &address, bytes, 100, Order::Near, room))
}

/// An engine that was opened with these bytes.
fn open(rt: &impl Abort, alloc: Global, root: &str, room: u32) -> Result<Core, Fail> {
    Ok(open_with(rt, alloc, root, room)??)
}

/// From above the tile, so that all of it is seen.
fn view() -> Option<View> {
    let eye = Point {
        x: 0,
        y: 0,
        z: 100_000,
    };
    View::new(eye, 1080, 1, 2, 256, &[]).ok()
}

/// Looks for the first viewer, gives the frame back, and answers how many contents it showed.
fn look(core: &mut Core, alloc: Global, view: View) -> Result<usize, LookError> {
    let frame = core.look(alloc, 0, 0, view)?;
    let shown = frame.shown().len();
    core.give_back(0, frame);
    Ok(shown)
}

/// The same for its latest view, once nothing is left to load.
fn look_settled(core: &mut Core, alloc: Global, viewer: u8) -> Result<usize, LookError> {
    let frame = core.look_settled(alloc, 0, viewer)?;
    let shown = frame.shown().len();
    core.give_back(0, frame);
    Ok(shown)
}

#[test]
fn what_is_no_document_opens_nothing(rt: HostRuntime) -> Result<(), Fail> {
    let alloc = rt.alloc();
    let error = DocumentError::NotJson;
    let refused = open_with(&rt, alloc, "{", ROOM)?.err();
    assert_eq!(rt; refused, Some(OpenError::Document { error }));
    Ok(())
}

#[test]
fn nobody_has_looked(rt: HostRuntime) -> Result<(), Fail> {
    let alloc = rt.alloc();
    let mut core = open(&rt, alloc, ONE, ROOM)?;
    assert_eq!(rt; core.take(alloc, 0).err(), Some(TakeError::Idle));
    let entries = 1;
    assert_eq!(rt;
        look_settled(&mut core, alloc, 3),
        Err(LookError::NoView { entries })
    );
    Ok(())
}

#[test]
fn a_content_that_is_wanted(rt: HostRuntime) -> Result<(), Fail> {
    let alloc = rt.alloc();
    let view = view().expect(&rt, "a view");
    let mut core = open(&rt, alloc, ONE, ROOM)?;
    assert_eq!(rt; look(&mut core, alloc, view), Ok(0));
    let left = LookError::NotSettled {
        entries: 3,
        flying: 0,
        takeable: 1,
    };
    assert_eq!(rt; look_settled(&mut core, alloc, 0), Err(left));
    let job = core.take(alloc, 0)?;
    assert!(rt; job.key.kind == Kind::Content);
    assert_eq!(rt; job.key.address.as_str(), "http://tiles/a.glb");
    Ok(())
}

#[test]
fn a_content_that_is_missing(rt: HostRuntime) -> Result<(), Fail> {
    let alloc = rt.alloc();
    let view = view().expect(&rt, "a view");
    let mut core = open(&rt, alloc, ONE, ROOM)?;
    assert_eq!(rt; look(&mut core, alloc, view), Ok(0));
    let job = core.take(alloc, 0)?;
    assert!(rt; core.arrive(alloc, 0, job, Outcome::Missing).is_ok());

    // Nothing is left to load, and the frame shows nothing still.
    assert_eq!(rt; core.take(alloc, 0).err(), Some(TakeError::Idle));
    assert_eq!(rt; look_settled(&mut core, alloc, 0), Ok(0));
    let journal = core.finish();
    assert_eq!(rt; journal.len(), 7);
    assert!(rt;
        matches!(
            &journal[4],
            Entry::Absent {
                why: Gone::Missing,
                ..
            }
        )
    );
    assert!(rt;
        matches!(
            &journal[5],
            Entry::Looked {
                id: 2,
                settled: true,
                ..
            }
        )
    );
    Ok(())
}

#[test]
fn an_engine_that_is_closed(rt: HostRuntime) -> Result<(), Fail> {
    let alloc = rt.alloc();
    let view = view().expect(&rt, "a view");
    let mut core = open(&rt, alloc, ONE, ROOM)?;
    core.close(0);
    core.close(0);
    assert_eq!(rt; core.take(alloc, 0).err(), Some(TakeError::Closed));
    assert_eq!(rt; core.retry(0), Err(RetryError::Closed));
    assert_eq!(rt; look(&mut core, alloc, view), Err(LookError::Closed));
    assert_eq!(rt; core.journal().len(), 2);
    Ok(())
}

#[test]
fn a_content_that_is_tried_three_times(rt: HostRuntime) -> Result<(), Fail> {
    let alloc = rt.alloc();
    let view = view().expect(&rt, "a view");
    let mut core = open(&rt, alloc, ONE, ROOM)?;
    assert_eq!(rt; look(&mut core, alloc, view), Ok(0));
    for _ in 0..3 {
        let job = core.take(alloc, 0)?;
        assert!(rt; core.arrive(alloc, 0, job, Outcome::Starved).is_ok());
    }
    assert_eq!(rt; core.take(alloc, 0).err(), Some(TakeError::Idle));
    assert_eq!(rt; core.retry(0), Ok(()));
    assert!(rt; core.take(alloc, 0).is_ok());
    Ok(())
}

#[test]
fn a_journal_that_is_full(rt: HostRuntime) -> Result<(), Fail> {
    let alloc = rt.alloc();
    let view = view().expect(&rt, "a view");

    // One entry, and three to come, fit; another look doesn't.
    let mut core = open(&rt, alloc, ONE, 4)?;
    assert_eq!(rt; look(&mut core, alloc, view), Ok(0));
    assert_eq!(rt;
        look(&mut core, alloc, view),
        Err(LookError::JournalFull { entries: 3 })
    );
    assert_eq!(rt;
        core.take(alloc, 0).err(),
        Some(TakeError::JournalFull { entries: 3 })
    );
    assert_eq!(rt; core.retry(0), Err(RetryError::JournalFull { entries: 3 }));
    core.close(0);
    assert_eq!(rt; core.journal().len(), 4);
    Ok(())
}
