//! Why a desk has no job any more.

/// Why a desk has no job any more.
#[derive(Clone, Copy, Debug, PartialEq, Eq, Drop)]
pub enum Stop {
    /// The journal has no room for a further flight.
    JournalFull,
    /// Memory ran out.
    OutOfMemory,
}
