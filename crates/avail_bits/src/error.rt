//! Refusals.

ghost use Rattle.std.specs.Prelude.{◌≡◌};
ghost use Rattle.avail_bits.specs.declared.error.BitsError.TheVariants.{OutOfMemory};

use std::alloc::{AllocError, AllocFailed};
use thiserror::Error;

/// Why bytes aren't the bits that are wanted.
#[derive(Clone, Copy, Debug, PartialEq, Eq, Drop, Error)]
pub enum BitsError {
    /// There are fewer bytes than the bits need.
    #[error("too few bytes for the bits")]
    Short,
    /// Memory ran out.
    #[error("out of memory")]
    OutOfMemory,
}

impl From<AllocError> for BitsError {
    ghost from_gives = { λ _ e. e ≡ OutOfMemory };

    fn from(_e: AllocError) -> BitsError {
        BitsError::OutOfMemory
    }
}

impl<T: Drop> From<AllocFailed<T>> for BitsError {
    ghost from_gives = { λ _ e. e ≡ OutOfMemory };

    fn from(_e: AllocFailed<T>) -> BitsError {
        BitsError::OutOfMemory
    }
}
