//! What no clause says of sources and sinks.

use super::*;
use crate::reading::read_within;
use bytes::Bytes;
use std::alloc::{AllocError, Global};
use std::fs;
use std::rt::Files;
use std::test::Fail;

/// A list of the files `a` = `abc`, `b` = `hello` and, behind them, `a` = `x`.
fn files(alloc: Global) -> Result<FileList, AllocError> {
    let mut files = FileList::new(alloc);
    for (address, bytes) in [("a", "abc"), ("b", "hello"), ("a", "x")] {
        files.push(NamedFile {
            address: Text::new(alloc, address)?,
            bytes: Bytes::copy_from_slice(alloc, bytes.as_bytes())?,
        })?;
    }
    Ok(files)
}

fn numbers(alloc: Global, number: u64) -> Result<NumberList, AllocError> {
    let mut numbers = NumberList::new(alloc);
    numbers.push(number)?;
    Ok(numbers)
}

#[test]
fn a_memory_source_fails_by_number(rt: HostRuntime) -> Result<(), Fail> {
    let alloc = rt.alloc();
    let mut source = MemorySource::new(files(alloc)?, numbers(alloc, 2)?);
    let mut into = Vec::new(alloc);
    assert_eq!(rt; source.fetch(alloc, "a", 5, &mut into), Ok(()));
    assert_eq!(rt; into.as_slice(), b"x".as_slice());
    assert_eq!(rt;
        source.fetch(alloc, "b", 5, &mut into),
        Err(FetchError::Failed)
    );
    assert_eq!(rt; source.faults(), 1);
    assert_eq!(rt;
        source.fetch(alloc, "c", 5, &mut into),
        Err(FetchError::Missing)
    );
    assert_eq!(rt;
        source.fetch(alloc, "b", 4, &mut into),
        Err(FetchError::TooLong)
    );
    assert_eq!(rt; into.as_slice(), b"x".as_slice());
    assert_eq!(rt; source.fetch(alloc, "b", 5, &mut into), Ok(()));
    assert_eq!(rt; into.as_slice(), b"hello".as_slice());
    let mut fork = source.fork(alloc)?;
    assert_eq!(rt; fork.faults(), 0);
    assert_eq!(rt; fork.fetch(alloc, "b", 5, &mut into), Ok(()));
    assert_eq!(rt;
        fork.fetch(alloc, "b", 5, &mut into),
        Err(FetchError::Failed)
    );
    Ok(())
}

#[test]
fn a_file_that_is_added_counts_first(rt: HostRuntime) -> Result<(), Fail> {
    let alloc = rt.alloc();
    let mut source = MemorySource::new(files(alloc)?, NumberList::new(alloc));
    source.add(
        Text::new(alloc, "b")?,
        Bytes::copy_from_slice(alloc, b"later")?,
    )?;
    let mut into = Vec::new(alloc);
    assert_eq!(rt; source.fetch(alloc, "b", 5, &mut into), Ok(()));
    assert_eq!(rt; into.as_slice(), b"later".as_slice());
    Ok(())
}

#[test]
fn a_steady_source_never_fails(rt: HostRuntime) -> Result<(), Fail> {
    let alloc = rt.alloc();
    let mut source = SteadySource::new(files(alloc)?).fork(alloc)?;
    let mut into = Vec::new(alloc);
    assert_eq!(rt; source.fetch(alloc, "a", 1, &mut into), Ok(()));
    assert_eq!(rt;
        source.fetch(alloc, "c", 1, &mut into),
        Err(FetchError::Missing)
    );
    assert_eq!(rt; source.faults(), 0);
    Ok(())
}

#[test]
fn a_memory_sink_fails_by_number(rt: HostRuntime) -> Result<(), Fail> {
    let alloc = rt.alloc();
    let mut sink = MemorySink::new(alloc, numbers(alloc, 2)?);
    assert_eq!(rt; sink.put(alloc, b"one"), Ok(()));
    assert_eq!(rt; sink.put(alloc, b"two"), Err(PutError::SinkFailed));
    assert_eq!(rt; sink.put(alloc, b"three"), Ok(()));
    assert_eq!(rt; sink.bytes(), b"onethree".as_slice());
    assert_eq!(rt; sink.faults(), 1);
    Ok(())
}

/// Fetches what the last part of an address names, from a file source with a limit of 5 bytes.
fn fetch_file<R: Files + Clone + Drop + AllocGlobal>(
    rt: &R,
    source: &mut DirSource<R>,
    address: &str,
    into: &mut Vec<u8>,
) -> Result<(), FetchError> {
    source.fetch(rt.alloc(), address, 5, into)
}

#[test]
fn files_below_the_folder(rt: HostRuntime) -> Result<(), Fail> {
    let folder = "source_port_test";
    drop(fs::remove_dir_all(&rt, folder));
    fs::create_dir(&rt, folder)?;
    for (path, bytes) in [
        ("source_port_test/empty", ""),
        ("source_port_test/five", "hello"),
        ("source_port_test/six", "hello!"),
    ] {
        fs::write(&rt, path, bytes)?;
    }
    let mut source = DirSource::new(rt.clone()?);
    for (address, answer, faults) in [
        ("http://tiles/source_port_test/empty", Ok(()), 0),
        ("http://tiles/source_port_test/five?a#b", Ok(()), 0),
        (
            "http://tiles/source_port_test/six",
            Err(FetchError::TooLong),
            0,
        ),
        (
            "http://tiles/source_port_test/seven",
            Err(FetchError::Missing),
            0,
        ),
        (
            "http://tiles/source_port_test/../source_port_test/five",
            Err(FetchError::Missing),
            0,
        ),
        (
            "http://tiles/source_port_test//five",
            Err(FetchError::Missing),
            0,
        ),
        ("http://tiles/", Err(FetchError::Missing), 0),
        (
            "http://tiles/%73ource_port_test/five",
            Err(FetchError::Missing),
            0,
        ),
        ("file:///etc/passwd", Err(FetchError::Missing), 0),
        // A folder, and a path through a file.
        ("http://tiles/source_port_test", Err(FetchError::Failed), 1),
        (
            "http://tiles/source_port_test/five/six",
            Err(FetchError::Failed),
            2,
        ),
    ] {
        let mut into = Vec::new(rt.alloc());
        assert_eq!(rt;
            fetch_file(&rt, &mut source, address, &mut into),
            answer,
            "{address}"
        );
        assert_eq!(rt; source.faults(), faults, "{address}");
    }
    let mut into = Vec::from_slice(rt.alloc(), b"old")?;
    let five = "http://tiles/source_port_test/five";
    assert_eq!(rt; fetch_file(&rt, &mut source, five, &mut into), Ok(()));
    assert_eq!(rt; into.as_slice(), b"hello".as_slice());
    assert_eq!(rt; source.fork(rt.alloc())?.faults(), 0);
    fs::remove_dir_all(&rt, folder)?;
    Ok(())
}

#[test]
fn a_reader_is_read_whole(rt: HostRuntime) -> Result<(), Fail> {
    let alloc = rt.alloc();
    for expected in [0, 5, 9] {
        let read = read_within(b"hello".as_slice(), alloc, expected, 5);
        assert!(rt; read.is_ok_and(|bytes| bytes.as_slice() == b"hello".as_slice()));
        let refused = read_within(b"hello".as_slice(), alloc, expected, 4);
        assert_eq!(rt; refused.err(), Some(FetchError::TooLong));
    }
    Ok(())
}
