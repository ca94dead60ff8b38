//! Refusals.

ghost use Rattle.std.specs.Prelude.{◌≡◌};
ghost use Rattle.subtree_binary.specs.declared.error.SubtreeError.TheVariants.{OutOfMemory};

use std::alloc::{AllocError, AllocFailed};
use thiserror::Error;

/// The parts of a subtree's JSON chunk that a cause may speak of (OGC 22-025r4, "Subtrees").
#[derive(Clone, Copy, Debug, PartialEq, Eq)]
pub enum SubtreeField {
    /// The top object.
    Top,
    /// `buffers`, or one of them.
    Buffers,
    /// `bufferViews`, or one of them.
    Views,
    /// `tileAvailability`.
    TileAvailability,
    /// `contentAvailability`, or one of its entries.
    ContentAvailability,
    /// `childSubtreeAvailability`.
    ChildAvailability,
}

/// Why bytes aren't read as a subtree. Of several causes the one that is met first is answered.
#[derive(Clone, Copy, Debug, PartialEq, Eq, Drop, Error)]
pub enum SubtreeError {
    /// They don't begin with `subt`.
    #[error("not a binary subtree")]
    Magic,
    /// The version isn't 1.
    #[error("another version than 1")]
    Version,
    /// The header isn't whole, or its chunks pass the bytes.
    #[error("fewer bytes than the header says")]
    Lengths,
    /// The JSON chunk is no JSON text (RFC 8259).
    #[error("not JSON")]
    NotJson,
    /// The part has another form than it has to have, or isn't there.
    #[error("a part of another form")]
    Shape { field: SubtreeField },
    /// A bitstream passes its buffer or the binary chunk.
    #[error("a view past its buffer")]
    ViewRange,
    /// A bitstream has fewer bytes than the bits need.
    #[error("too few bytes for the bits")]
    BitsShort,
    /// A bitstream isn't in the binary chunk.
    #[error("a bitstream in another file")]
    ExternalBuffer,
    /// Memory ran out.
    #[error("out of memory")]
    OutOfMemory,
}

impl From<AllocError> for SubtreeError {
    ghost from_gives = { λ _ e. e ≡ OutOfMemory };

    fn from(_e: AllocError) -> SubtreeError {
        SubtreeError::OutOfMemory
    }
}

impl<T: Drop> From<AllocFailed<T>> for SubtreeError {
    ghost from_gives = { λ _ e. e ≡ OutOfMemory };

    fn from(_e: AllocFailed<T>) -> SubtreeError {
        SubtreeError::OutOfMemory
    }
}
