//! Why nodes aren't added.

/// Why nodes aren't added to a list.
#[derive(Clone, Copy, Debug, PartialEq, Eq)]
pub enum ListError {
    /// There would be more than the limit.
    TooLarge,
    /// There is no memory.
    OutOfMemory,
}

/// One node more is too many. What answers so takes no memory.
#[derive(Clone, Copy, Debug, PartialEq, Eq)]
pub(crate) struct NoRoom;
