//! Why calls of a core are refused.

use frame_pins::Why;
use std::alloc::AllocError;
use tileset_schema::DocumentError;

/// Why an engine isn't opened.
#[derive(Clone, Copy, Debug, PartialEq, Eq)]
pub enum OpenError {
    /// The root document isn't read (OGC 22-025r4, "Tileset JSON").
    Document { error: DocumentError },
    /// Memory ran out.
    OutOfMemory,
}

/// Why nothing is taken.
#[derive(Clone, Copy, Debug, PartialEq, Eq)]
pub enum TakeError {
    /// Nothing that is wanted may be taken now.
    Idle,
    /// The journal, which has so many entries, has no room for a further flight.
    JournalFull { entries: u64 },
    /// The engine was closed.
    Closed,
    /// Memory ran out.
    OutOfMemory,
}

/// Why a look has no frame.
#[derive(Clone, Copy, Debug, PartialEq, Eq)]
pub enum LookError {
    /// As many frames are held as may be, or the view visits too many nodes.
    Refused {
        why: Why,
    },
    /// The journal, which has so many entries, has no room for a further frame.
    JournalFull {
        entries: u64,
    },
    /// The engine was closed.
    Closed,
    /// Memory ran out.
    OutOfMemory,
    /// Something is left to load: so many keys are being fetched, and so many may be taken.
    NotSettled {
        entries: u64,
        flying: u32,
        takeable: u64,
    },
    /// The viewer didn't look yet.
    NoView {
        entries: u64,
    },
}

/// Why what failed isn't tried anew.
#[derive(Clone, Copy, Debug, PartialEq, Eq)]
pub enum RetryError {
    /// The journal, which has so many entries, has no room for a further one.
    JournalFull { entries: u64 },
    /// The engine was closed.
    Closed,
    /// Memory ran out.
    OutOfMemory,
}

impl From<AllocError> for OpenError {
    ghost use Rattle.std.specs.Prelude.{◌≡◌};
    ghost use Rattle.engine_core.specs.declared.error.OpenError.TheVariants.{OutOfMemory};

    ghost from_gives = { λ _ e. e ≡ OutOfMemory };

    fn from(_: AllocError) -> OpenError {
        OpenError::OutOfMemory
    }
}

impl From<AllocError> for TakeError {
    ghost use Rattle.std.specs.Prelude.{◌≡◌};
    ghost use Rattle.engine_core.specs.declared.error.TakeError.TheVariants.{OutOfMemory};

    ghost from_gives = { λ _ e. e ≡ OutOfMemory };

    fn from(_: AllocError) -> TakeError {
        TakeError::OutOfMemory
    }
}

impl From<AllocError> for LookError {
    ghost use Rattle.std.specs.Prelude.{◌≡◌};
    ghost use Rattle.engine_core.specs.declared.error.LookError.TheVariants.{OutOfMemory};

    ghost from_gives = { λ _ e. e ≡ OutOfMemory };

    fn from(_: AllocError) -> LookError {
        LookError::OutOfMemory
    }
}

impl From<AllocError> for RetryError {
    ghost use Rattle.std.specs.Prelude.{◌≡◌};
    ghost use Rattle.engine_core.specs.declared.error.RetryError.TheVariants.{OutOfMemory};

    ghost from_gives = { λ _ e. e ≡ OutOfMemory };

    fn from(_: AllocError) -> RetryError {
        RetryError::OutOfMemory
    }
}
