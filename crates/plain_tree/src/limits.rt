//! How large a tree is listed.

/// How many nodes an expanded tree has at most that is listed.
pub const NODE_LIMIT: u32 = 1_048_576;
