//! What a store knows of a key.

/// What is known of a key.
#[derive(Clone, Copy, Debug, PartialEq, Eq)]
pub enum DocState {
    /// It is neither loaded nor absent.
    NotLoaded,
    /// Its bytes are loaded, and a document is read from them.
    Read,
    /// Its bytes are loaded, and no document is read from them.
    Refused,
    /// There is nothing at its address, or what is there can't be kept.
    Absent,
}
