//! Which want is loaded first.

/// Which of the wanted keys is loaded first. The queue of loads ranks by it.
#[derive(Clone, Copy, Debug, PartialEq, Eq)]
pub enum Order {
    /// The nearest.
    Near,
    /// The one with the greatest geometric error.
    Coarse,
    /// The first of the list.
    Listed,
}
