//! What a source is.

ghost use Rattle.std.specs.Prelude.{◌≡◌, ℕ, Option, IfOk, OnErr};
ghost use Rattle.source_port.specs.Fetches.{Answers, CountsFetch, RisesAtFailure};
ghost use Rattle.source_port.specs.Library.{Library};

use std::alloc::{AllocError, Global};
use thiserror::Error;

/// Why a fetch gave no bytes.
#[derive(Clone, Copy, Debug, PartialEq, Eq, Drop, Error)]
pub enum FetchError {
    /// There is nothing at the address.
    #[error("missing")]
    Missing,
    /// What is there is longer than the limit.
    #[error("too long")]
    TooLong,
    /// The source is at fault, and its count of faults rose.
    #[error("failed")]
    Failed,
    /// Memory ran out.
    #[error("out of memory")]
    OutOfMemory,
}

/// A value that names a library.
pub trait LibraryName: Drop {
    /// The library that the value names, where it is told.
    ghost library: { Self → Option Library };
}

/// Where bytes are fetched from, by their address.
pub trait Source: LibraryName + Sized {
    /// How many fetches failed by the source's own fault.
    ghost faults: { Self → ℕ };

    /// How many fetches were answered, but for those that found no memory.
    ghost fetches: { Self → ℕ };

    /// Puts the bytes at an address into `into`, at most `limit` of them.
    fn fetch(
        &mut self,
        alloc: Global,
        address: &str,
        limit: u32,
        into: &mut Vec<u8>,
    ) -> Result<(), FetchError>
        ensures answer { Answers result (Self.library self.old) address.now limit into.new.items }
        ensures refused { OnErr result (into.new.items ≡ into.old.items) }
        ensures faults { RisesAtFailure result (faults self.old) (faults self.new) }
        ensures fetches { CountsFetch result (fetches self.old) (fetches self.new) }
        ensures library { Self.library self.new ≡ Self.library self.old };

    /// Another source of the same library, whose counts begin at 0.
    fn fork(&self, alloc: Global) -> Result<Self, AllocError>
        ensures library { IfOk result (λ s. Self.library s ≡ Self.library self.now) }
        ensures faults { IfOk result (λ s. faults s ≡ 0) }
        ensures fetches { IfOk result (λ s. fetches s ≡ 0) };

    /// How many fetches failed by the source's own fault.
    fn faults(&self) -> u64
        ensures { result ≡ faults self.now };
}
