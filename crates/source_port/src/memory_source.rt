//! A source in memory, of which chosen fetches fail.

ghost use Rattle.std.specs.Prelude.{◌≡◌, ◌∷◌, ◌++◌, [], Some, OnOk, OnErr, IfOk, option_map};
ghost use Rattle.source_port.specs.Fetches.{Answers, CountsFetch, RisesAtFailure};
ghost use Rattle.source_port.specs.Library.{bytes_at};
ghost use Rattle.source_port.specs.Memory.{new_source, numbered_answer, after_fetch, answer_of};
ghost use Rattle.source_port.specs.Memory.{is_listed, Gives, TakesNumber};

use crate::library::{FileList, NamedFile};
use crate::source::{FetchError, LibraryName, Source};
use bytes::Bytes;
use std::alloc::{AllocError, Global};
use std::marker::Model;
use tile_types::{NumberList, Text};

/// A source in memory that tells its library. It numbers its own fetches from 1, and exactly those whose
/// number is listed fail; a fetch that finds no memory takes no number.
#[derive(Drop)]
pub struct MemorySource {
    files: FileList,
    failing: NumberList,
    fetched: u64,
    faults: u64,
}

impl Model for MemorySource {
    ghost use Rattle.source_port.specs.Memory.{MemoryParts};

    ghost Value = { MemoryParts };

    ghost view = { λ s. record {
      files = s.files;
      failing = s.failing;
      fetched = s.fetched;
      faults = s.faults;
    } };
}

impl MemorySource {
    /// A source of these files, of which the fetches with these numbers fail.
    pub fn new(files: FileList, failing: NumberList) -> MemorySource
        ensures { result ≡ new_source files failing }
    {
        MemorySource {
            files,
            failing,
            fetched: 0,
            faults: 0,
        }
    }

    /// Adds a file, which counts before earlier ones of its address.
    pub fn add(&mut self, address: Text, bytes: Bytes) -> Result<(), AllocError>
        ensures added { OnOk result (self.new ≡ record self.old {
          files = self.old.files ++ (record { address = address; bytes = bytes }) ∷ [];
        }) }
        ensures refused { OnErr result (self.new ≡ self.old) }
    {
        self.files.push(NamedFile { address, bytes })
    }
}

impl LibraryName for MemorySource {
    ghost library = { λ s. Some s.files };
}

impl Source for MemorySource {
    ghost faults = { λ s. s.faults };

    ghost fetches = { λ s. s.fetched };

    fn fetch(
        &mut self,
        alloc: Global,
        address: &str,
        limit: u32,
        into: &mut Vec<u8>,
    ) -> Result<(), FetchError>
        ensures exact { Gives result into.new.items (numbered_answer self.old address.now limit) }
        ensures number { TakesNumber result self.old (after_fetch self.old) self.new }

        // What every source ensures.
        ensures answer { Answers result (Some self.old.files) address.now limit into.new.items }
        ensures refused { OnErr result (into.new.items ≡ into.old.items) }
        ensures faults { RisesAtFailure result self.old.faults self.new.faults }
        ensures fetches { CountsFetch result self.old.fetched self.new.fetched }
        ensures library { self.new.files ≡ self.old.files }
    {
        let number = self.fetched.saturating_add(1);
        if lists(&self.failing, number) {
            self.fetched = number;
            self.faults = self.faults.saturating_add(1);
            return Err(FetchError::Failed);
        }
        let answer = fetch_from(alloc, &self.files, address, limit, into);
        if answer != Err(FetchError::OutOfMemory) {
            self.fetched = number;
        }
        answer
    }

    fn fork(&self, alloc: Global) -> Result<MemorySource, AllocError>
        ensures { IfOk result (λ s. s ≡ new_source self.now.files self.now.failing) }
    {
        Ok(MemorySource {
            files: copy_files(alloc, &self.files)?,
            failing: NumberList::from_slice(alloc, self.failing.as_slice())?,
            fetched: 0,
            faults: 0,
        })
    }

    fn faults(&self) -> u64 {
        self.faults
    }
}

pub(crate) fn lists(numbers: &NumberList, number: u64) -> bool
    ensures { result ≡ is_listed numbers.now number }
{
    numbers.as_slice().iter().any(|n| *n == number)
}

/// The bytes of the last file of an address.
fn find<'a>(files: &'a [NamedFile], address: &str) -> Option<&'a Bytes>
    ensures { option_map (λ bytes. bytes.now) result ≡ bytes_at files.now address.now }
{
    let mut rest = files;
    while let Some((file, front)) = rest.split_last() {
        if file.address.as_str() == address {
            return Some(&file.bytes);
        }
        rest = front;
    }
    None
}

/// Answers of these files as a source of them does.
pub(crate) fn fetch_from(
    alloc: Global,
    files: &FileList,
    address: &str,
    limit: u32,
    into: &mut Vec<u8>,
) -> Result<(), FetchError>
    ensures answer { Gives result into.new.items (answer_of files.now address.now limit) }
    ensures refused { OnErr result (into.new.items ≡ into.old.items) }
{
    let Some(bytes) = find(files.as_slice(), address) else {
        return Err(FetchError::Missing);
    };
    if bytes.len() > limit as usize {
        return Err(FetchError::TooLong);
    }
    let Ok(copy) = Vec::from_slice(alloc, bytes.as_slice()) else {
        return Err(FetchError::OutOfMemory);
    };
    *into = copy;
    Ok(())
}

/// The same files again; their bytes are shared.
pub(crate) fn copy_files(alloc: Global, files: &FileList) -> Result<FileList, AllocError>
    ensures { IfOk result (λ list. list ≡ files.now) }
{
    let mut copies = FileList::new(alloc);
    for file in files.as_slice() {
        copies.push(NamedFile {
            address: file.address.copy(alloc)?,
            bytes: file.bytes.clone()?,
        })?;
    }
    Ok(copies)
}
