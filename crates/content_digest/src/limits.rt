//! How long a content may be.

/// How many bytes a content has at most.
pub const CONTENT_LIMIT: u32 = 67_108_864;
