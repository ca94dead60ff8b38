//! A source that refuses.

ghost use Rattle.std.specs.Prelude.{None};

use source_port::{FetchError, LibraryName, Source};
use std::alloc::{AllocError, Global};

/// A source that refuses each fetch by one cause. Its library isn't told.
#[derive(Drop)]
pub(crate) struct RefusingSource {
    pub(crate) error: FetchError,
    pub(crate) faults: u64,
    pub(crate) fetched: u64,
}

impl LibraryName for RefusingSource {
    ghost library = { λ _. None };
}

impl Source for RefusingSource {
    ghost faults = { λ s. s.faults };

    ghost fetches = { λ s. s.fetched };

    fn fetch(
        &mut self,
        _alloc: Global,
        _address: &str,
        _limit: u32,
        _into: &mut Vec<u8>,
    ) -> Result<(), FetchError> {
        match self.error {
            FetchError::OutOfMemory => return Err(FetchError::OutOfMemory),
            FetchError::Failed => self.faults = self.faults.saturating_add(1),
            FetchError::Missing | FetchError::TooLong => {}
        }
        self.fetched = self.fetched.saturating_add(1);
        Err(self.error)
    }

    fn fork(&self, _alloc: Global) -> Result<RefusingSource, AllocError> {
        Ok(RefusingSource {
            error: self.error,
            faults: 0,
            fetched: 0,
        })
    }

    fn faults(&self) -> u64 {
        self.faults
    }
}
