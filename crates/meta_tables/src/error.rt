//! Refusals.

ghost use Rattle.std.specs.Prelude.{◌≡◌};
ghost use Rattle.meta_tables.specs.declared.error.TableError.TheVariants.{OutOfMemory};

use std::alloc::{AllocError, AllocFailed};
use thiserror::Error;

/// Why a property table isn't read (OGC 22-025r4, "Property tables"). Of several causes the first in
/// the order of columns is answered.
#[derive(Clone, Copy, Debug, PartialEq, Eq, Drop, Error)]
pub enum TableError {
    /// The table, or one of its columns, has another form than it has to have, or isn't there.
    #[error("a table of another form")]
    Shape,
    /// The schema has no class of the table's name.
    #[error("a table of an unknown class")]
    UnknownClass,
    /// A view passes its buffer, or has fewer bytes than the rows need.
    #[error("a view past its buffer or with too few bytes")]
    ViewRange,
    /// Offsets of texts fall, or pass the texts.
    #[error("offsets that fall or pass the texts")]
    Offsets,
    /// A text isn't UTF-8.
    #[error("a text that is not UTF-8")]
    NotUtf8,
    /// Memory ran out.
    #[error("out of memory")]
    OutOfMemory,
}

impl From<AllocError> for TableError {
    ghost from_gives = { λ _ e. e ≡ OutOfMemory };

    fn from(_e: AllocError) -> TableError {
        TableError::OutOfMemory
    }
}

impl<T: Drop> From<AllocFailed<T>> for TableError {
    ghost from_gives = { λ _ e. e ≡ OutOfMemory };

    fn from(_e: AllocFailed<T>) -> TableError {
        TableError::OutOfMemory
    }
}
