//! How adding a document ends.

/// Whether a document was added.
#[derive(Clone, Copy, Debug, PartialEq, Eq)]
pub enum Added {
    /// It is kept, whether its bytes are read or refused.
    Kept,
    /// The store is full, and keeps what it had.
    Full,
}
