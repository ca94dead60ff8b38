//! Files as a source.

ghost use Rattle.std.specs.Prelude.{◌≡◌, Err, None, OnErr};
ghost use Rattle.source_port.specs.Counts.{no_calls};
ghost use Rattle.source_port.specs.Fetches.{Answers, CountsExactly, CountsFetch, RisesAtFailure};
ghost use Rattle.source_port.specs.Paths.{path_at};

use crate::counts::CallCounts;
use crate::paths::path_of;
use crate::reading::read_file;
use crate::source::{FetchError, LibraryName, Source};
use std::alloc::{AllocError, Global};
use std::marker::Model;
use std::rt::Files;

/// The files below the current folder, at addresses that begin with `http://tiles/`. The query and the
/// fragment of an address aren't looked at. A path that leaves the folder, has an empty segment or a byte
/// other than ASCII letters, digits, `-`, `.`, `_`, `~` and `/` is missing; what isn't a regular file is a
/// fault. It doesn't tell its library.
#[derive(Drop)]
pub struct DirSource<R> {
    rt: R,
    counts: CallCounts,
}

impl<R> Model for DirSource<R> {
    ghost use Rattle.source_port.specs.Counts.{Counts};

    ghost Value = { Counts };

    ghost view = { λ s. s.counts };
}

impl<R: Files + Clone + Drop> DirSource<R> {
    ghost use Rattle.std.specs.Prelude.{◌≡◌};

    /// A source over the files that the runtime reaches. Contracts see it as its counts.
    pub fn new(rt: R) -> DirSource<R>
        ensures { result ≡ no_calls }
    {
        DirSource {
            rt,
            counts: CallCounts::new(),
        }
    }
}

/// Counts a fetch that gave no bytes.
fn count_refusal(counts: &mut CallCounts, cause: FetchError)
    ensures counted { CountsExactly (Err cause) counts.old counts.new }
    ensures faults { RisesAtFailure (Err cause) counts.old.faults counts.new.faults }
{
    match cause {
        FetchError::Missing | FetchError::TooLong => counts.count_call(),
        FetchError::Failed => counts.count_fault(),
        FetchError::OutOfMemory => {}
    }
}

impl<R: Files + Clone + Drop> LibraryName for DirSource<R> {
    ghost use Rattle.std.specs.Prelude.{None};

    ghost library = { λ _. None };
}

impl<R: Files + Clone + Drop> Source for DirSource<R> {
    ghost faults = { λ s. s.faults };

    ghost fetches = { λ s. s.calls };

    fn fetch(
        &mut self,
        alloc: Global,
        address: &str,
        limit: u32,
        into: &mut Vec<u8>,
    ) -> Result<(), FetchError>
        ensures counted { CountsExactly result self.old self.new }
        ensures outside { path_at address.now ≡ None → result ≡ Err FetchError.Missing }

        // What every source ensures.
        ensures answer { Answers result None address.now limit into.new.items }
        ensures refused { OnErr result (into.new.items ≡ into.old.items) }
        ensures faults { RisesAtFailure result self.old.faults self.new.faults }
        ensures fetches { CountsFetch result self.old.calls self.new.calls }
    {
        let Some(path) = path_of(address) else {
            self.counts.count_call();
            return Err(FetchError::Missing);
        };
        match read_file(&self.rt, alloc, path, limit) {
            Ok(bytes) => {
                self.counts.count_call();
                *into = bytes;
                Ok(())
            }
            Err(cause) => {
                count_refusal(&mut self.counts, cause);
                Err(cause)
            }
        }
    }

    fn fork(&self, _alloc: Global) -> Result<DirSource<R>, AllocError> {
        Ok(DirSource::new(self.rt.clone()?))
    }

    fn faults(&self) -> u64 {
        self.counts.faults
    }
}
