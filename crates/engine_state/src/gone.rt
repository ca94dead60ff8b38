//! Why nothing comes of a key.

/// Why nothing comes of a key.
#[derive(Clone, Copy, Debug, PartialEq, Eq)]
pub enum Gone {
    /// There is nothing at its address.
    Missing,
    /// What is there is longer than what its kind may have: 16,777,216 bytes of a document,
    /// 67,108,864 of a content.
    TooLong,
    /// It is a document for which the store has no room.
    StoreFull,
}
