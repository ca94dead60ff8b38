//! Why a content isn't admitted.

use std::alloc::AllocError;

/// Why a content isn't admitted.
#[derive(Clone, Copy, Debug, PartialEq, Eq)]
pub enum AdmitError {
    /// There is no room for its `length` bytes beside the `held` bytes of the residents that are
    /// pinned or to be kept.
    Squeezed { held: u64, length: u64 },
    /// Memory ran out.
    OutOfMemory,
}

impl From<AllocError> for AdmitError {
    ghost use Rattle.std.specs.Prelude.{◌≡◌};
    ghost use Rattle.tile_cache.specs.declared.error.AdmitError.TheVariants.{OutOfMemory};

    ghost from_gives = { λ _ e. e ≡ OutOfMemory };

    fn from(_: AllocError) -> AdmitError {
        AdmitError::OutOfMemory
    }
}
