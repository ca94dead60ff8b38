//! Why a session can't go on.

use std::alloc::AllocError;

/// Why a session can't go on.
#[derive(Clone, Copy, Debug, PartialEq, Eq)]
pub enum SessionError {
    /// The journal, which has so many entries, has no room for a further one.
    JournalFull { entries: u64 },
    /// Memory ran out.
    OutOfMemory,
}

impl From<AllocError> for SessionError {
    ghost use Rattle.std.specs.Prelude.{◌≡◌};
    ghost use Rattle.session_run.specs.declared.error.SessionError.TheVariants.{OutOfMemory};

    ghost from_gives = { λ _ e. e ≡ OutOfMemory };

    fn from(_: AllocError) -> SessionError {
        SessionError::OutOfMemory
    }
}
