//! Why words give no command.

use thiserror::Error;

/// Why no command is read.
#[derive(Clone, Copy, Debug, Drop, PartialEq, Eq, Error)]
pub enum WordsError {
    /// The words are no command.
    #[error("not a command")]
    NotACommand,
    /// There is no memory.
    #[error("out of memory")]
    OutOfMemory,
}
