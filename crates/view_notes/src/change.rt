//! How a content changes.

/// What becomes of a content: one that is missing becomes resident or absent, one that is resident
/// goes.
#[derive(Clone, Copy, Debug, PartialEq, Eq)]
pub enum Change {
    Resident,
    Absent,
    Gone,
}
