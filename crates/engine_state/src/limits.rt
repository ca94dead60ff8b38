//! The limits of an engine.

/// How many frames may be held at once.
pub const FRAME_LIMIT: usize = 64;

/// How often a key is tried before it is left until the next retry.
pub const ATTEMPT_LIMIT: usize = 3;

/// How many entries have to fit into a journal beside those that are there and the ends of what
/// was begun: the next one, the end of what that begins, and the closing.
pub const JOURNAL_MARGIN: usize = 3;
