//! A source in memory that never fails.

ghost use Rattle.std.specs.Prelude.{◌≡◌, ◌≢◌, Some, OnErr, IfOk};
ghost use Rattle.source_port.specs.Counts.{next_count};
ghost use Rattle.source_port.specs.Fetches.{Answers, CountsFetch, RisesAtFailure};
ghost use Rattle.source_port.specs.Memory.{answer_of, new_steady, Gives};

use crate::library::FileList;
use crate::memory_source::{copy_files, fetch_from};
use crate::source::{FetchError, LibraryName, Source};
use std::alloc::{AllocError, Global};
use std::marker::Model;

/// A source in memory that tells its library and never fails: its count of faults is always 0.
#[derive(Drop)]
pub struct SteadySource {
    files: FileList,
    fetched: u64,
}

impl Model for SteadySource {
    ghost use Rattle.source_port.specs.Memory.{SteadyParts};

    ghost Value = { SteadyParts };

    ghost view = { λ s. record { files = s.files; fetched = s.fetched } };
}

impl SteadySource {
    /// A source of these files.
    pub fn new(files: FileList) -> SteadySource
        ensures { result ≡ new_steady files }
    {
        SteadySource { files, fetched: 0 }
    }
}

impl LibraryName for SteadySource {
    ghost library = { λ s. Some s.files };
}

impl Source for SteadySource {
    ghost faults = { λ _. 0 };

    ghost fetches = { λ s. s.fetched };

    fn fetch(
        &mut self,
        alloc: Global,
        address: &str,
        limit: u32,
        into: &mut Vec<u8>,
    ) -> Result<(), FetchError>
        ensures exact { Gives result into.new.items (answer_of self.old.files address.now limit) }
        ensures steady { result ≢ Err FetchError.Failed }

        // What every source ensures.
        ensures answer { Answers result (Some self.old.files) address.now limit into.new.items }
        ensures refused { OnErr result (into.new.items ≡ into.old.items) }
        ensures faults { RisesAtFailure result 0 0 }
        ensures fetches { CountsFetch result self.old.fetched self.new.fetched }
        ensures library { self.new.files ≡ self.old.files }
    {
        let answer = fetch_from(alloc, &self.files, address, limit, into);
        if answer != Err(FetchError::OutOfMemory) {
            self.fetched = self.fetched.saturating_add(1);
        }
        answer
    }

    fn fork(&self, alloc: Global) -> Result<SteadySource, AllocError>
        ensures { IfOk result (λ s. s ≡ new_steady self.now.files) }
    {
        Ok(SteadySource::new(copy_files(alloc, &self.files)?))
    }

    fn faults(&self) -> u64 {
        0
    }
}
