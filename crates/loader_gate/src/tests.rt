//! What jobs end with, and what a gate is told.

ghost use Rattle.std.specs.Prelude.{◌≡◌, ◌≤◌, IfOk, None, false, length};
ghost use Rattle.tile_types.specs.declared.text.TheConstants.{SHORT_TEXT};

use crate::test_desk::TestDesk;
use crate::test_source::RefusingSource;
use crate::{Gate, Loaded, OpenGate, Outcome, load_one};
use bytes::Bytes;
use source_port::{FetchError, FileList, MemorySource, NamedFile, Source, SteadySource};
use std::alloc::{AllocError, Global};
use std::cell::Cell;
use std::test::Fail;
use tile_types::{NumberList, Text};

/// Three bytes at `a`, and none at `e`.
fn files(alloc: Global) -> Result<FileList, AllocError> {
    let mut files = FileList::new(alloc);
    files.push(NamedFile {
        address: Text::new(alloc, "a")?,
        bytes: Bytes::copy_from_slice(alloc, b"abc")?,
    })?;
    files.push(NamedFile {
        address: Text::new(alloc, "e")?,
        bytes: Bytes::new(),
    })?;
    Ok(files)
}

/// A desk of the source's library, with a job at an address.
fn desk_of<S: Source>(
    alloc: Global,
    source: &S,
    address: &str,
    limit: u32,
) -> Result<TestDesk<S>, AllocError>
    requires { length address.now ≤ SHORT_TEXT }
    ensures { IfOk result (λ desk. (S.library desk.name ≡ S.library source.now)
        × (desk.out ≡ false) × (desk.delivered ≡ None)) }
{
    Ok(TestDesk {
        name: source.fork(alloc)?,
        alloc,
        address: Text::new(alloc, address)?,
        limit,
        pass: 3,
        refuses: false,
        out: false,
        delivered: None,
        jobs: 0,
        idle: 0,
        ended: 0,
    })
}

/// What a job at an address ends with.
fn outcome_of<S: Source>(
    alloc: Global,
    source: &mut S,
    address: &str,
    limit: u32,
    refuses: bool,
) -> Result<Option<Outcome>, AllocError>
    requires { length address.now ≤ SHORT_TEXT }
{
    let mut desk = desk_of(alloc, source, address, limit)?;
    desk.refuses = refuses;
    load_one(alloc, &mut desk, source, &OpenGate);
    Ok(desk.into_delivered())
}

#[test]
fn outcomes(rt: HostRuntime) -> Result<(), Fail> {
    let alloc = rt.alloc();
    let failing = NumberList::from_slice(alloc, &[4, 5])?;
    let mut source = MemorySource::new(files(alloc)?, failing);
    let bytes = outcome_of(alloc, &mut source, "a", 3, false)?;
    assert!(rt; matches!(bytes, Some(Outcome::Got(_))));
    let missing = outcome_of(alloc, &mut source, "b", 3, false)?;
    assert!(rt; matches!(missing, Some(Outcome::Missing)));
    let long = outcome_of(alloc, &mut source, "a", 2, false)?;
    assert!(rt; matches!(long, Some(Outcome::TooLong)));
    let failed = outcome_of(alloc, &mut source, "a", 3, false)?;
    assert!(rt; matches!(failed, Some(Outcome::Failed { count: 1 })));
    let again = outcome_of(alloc, &mut source, "a", 3, false)?;
    assert!(rt; matches!(again, Some(Outcome::Failed { count: 2 })));
    Ok(())
}

/// What a job ends with whose fetch is refused by a cause, with so many faults before it.
fn refused(alloc: Global, error: FetchError, faults: u64) -> Result<Option<Outcome>, AllocError> {
    let mut source = RefusingSource {
        error,
        faults,
        fetched: 0,
    };
    outcome_of(alloc, &mut source, "a", 3, false)
}

/// Each cause is told as itself, and a failure that has no count as want of memory.
#[test]
fn refused_fetches(rt: HostRuntime) -> Result<(), Fail> {
    let alloc = rt.alloc();
    let missing = refused(alloc, FetchError::Missing, 7)?;
    assert!(rt; matches!(missing, Some(Outcome::Missing)));
    let long = refused(alloc, FetchError::TooLong, 7)?;
    assert!(rt; matches!(long, Some(Outcome::TooLong)));
    let failed = refused(alloc, FetchError::Failed, 7)?;
    assert!(rt; matches!(failed, Some(Outcome::Failed { count: 8 })));
    let last = refused(alloc, FetchError::Failed, u64::MAX)?;
    assert!(rt; matches!(last, Some(Outcome::Starved)));
    let starved = refused(alloc, FetchError::OutOfMemory, 7)?;
    assert!(rt; matches!(starved, Some(Outcome::Starved)));
    Ok(())
}

/// A content without bytes comes as it is.
#[test]
fn no_bytes(rt: HostRuntime) -> Result<(), Fail> {
    let alloc = rt.alloc();
    let mut source = SteadySource::new(files(alloc)?);
    let Some(Outcome::Got(content)) = outcome_of(alloc, &mut source, "e", 0, false)? else {
        return Err("no content".into());
    };
    assert!(rt; content.bytes().is_empty());
    Ok(())
}

/// A desk without memory for the bytes is told that the job is starved.
#[test]
fn bytes_that_are_refused(rt: HostRuntime) -> Result<(), Fail> {
    let alloc = rt.alloc();
    let mut source = SteadySource::new(files(alloc)?);
    let starved = outcome_of(alloc, &mut source, "a", 3, true)?;
    assert!(rt; matches!(starved, Some(Outcome::Starved)));
    let missing = outcome_of(alloc, &mut source, "b", 3, true)?;
    assert!(rt; matches!(missing, Some(Outcome::Missing)));
    Ok(())
}

/// Remembers the passes that it was told of.
#[derive(Drop)]
struct Witness {
    before: Cell<u32>,
    after: Cell<u32>,
}

impl Gate for Witness {
    fn before_fetch(&self, pass: u32) {
        self.before.set(pass);
    }

    fn after_fetch(&self, pass: u32) {
        self.after.set(pass);
    }
}

#[test]
fn a_gate_and_a_desk_without_jobs(rt: HostRuntime) -> Result<(), Fail> {
    let alloc = rt.alloc();
    let mut source = SteadySource::new(files(alloc)?);
    let mut desk = desk_of(alloc, &source, "a", 3)?;
    let gate = Witness {
        before: Cell::new(0),
        after: Cell::new(0),
    };
    assert_eq!(rt;
        load_one(alloc, &mut desk, &mut source, &gate),
        Loaded::Done
    );
    assert_eq!(rt; gate.before.get(), 3);
    assert_eq!(rt; gate.after.get(), 3);
    assert_eq!(rt;
        load_one(alloc, &mut desk, &mut source, &gate),
        Loaded::Idle
    );
    assert_eq!(rt;
        load_one(alloc, &mut desk, &mut source, &gate),
        Loaded::Ended
    );
    Ok(())
}
