//! Why a document isn't read.

ghost use Rattle.std.specs.Prelude.{◌≡◌};
ghost use Rattle.tileset_schema.specs.declared.error.DocumentError.TheVariants.{OutOfMemory};

use crate::field::Field;
use std::alloc::{AllocError, AllocFailed};

/// Why a document isn't read. Tiles are numbered in preorder, from 0, and what is said of the top
/// object counts for tile 0. Of several causes the one that is met first is answered.
#[derive(Clone, Copy, Debug, PartialEq, Eq)]
pub enum DocumentError {
    /// The bytes are no JSON text (RFC 8259).
    NotJson,
    /// The part has another form than it has to have.
    Shape { field: Field, tile: u32 },
    /// The part isn't there.
    MissingField { field: Field, tile: u32 },
    /// The version is neither 1.0 nor 1.1.
    Version,
    /// An extension is required that isn't known.
    ExtensionRequired,
    /// The only volume is a region.
    RegionVolume { tile: u32 },
    /// There is no volume of a known kind.
    NoVolume { tile: u32 },
    /// A number is out of range.
    OutOfRange { field: Field, tile: u32 },
    /// The bottom row of the transform isn't 0, 0, 0, 1.
    NotAffine { tile: u32 },
    /// The refinement is neither ADD nor REPLACE.
    RefineWord { tile: u32 },
    /// There are both `content` and `contents`.
    BothContents { tile: u32 },
    /// The tile has more before it than a document may have.
    TooManyTiles,
    /// The uri of a content names no address, or that of an implicit tile is no template.
    BadAddress { tile: u32 },
    /// The levels of an implicit tile are out of range.
    ImplicitLimits { tile: u32 },
    /// The tile has `implicitTiling`, and its volume is no box.
    ImplicitSphere { tile: u32 },
    /// The tile has `implicitTiling`, and children too.
    ImplicitChildren { tile: u32 },
    /// There is no memory.
    OutOfMemory,
}

impl From<AllocError> for DocumentError {
    ghost from_gives = { λ _ e. e ≡ OutOfMemory };

    fn from(_error: AllocError) -> DocumentError {
        DocumentError::OutOfMemory
    }
}

impl<T: Drop> From<AllocFailed<T>> for DocumentError {
    ghost from_gives = { λ _ e. e ≡ OutOfMemory };

    fn from(_error: AllocFailed<T>) -> DocumentError {
        DocumentError::OutOfMemory
    }
}
