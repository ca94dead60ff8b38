//! Limits.

/// The most rows that a table may have, and the greatest number of a table.
pub const NUMBER_LIMIT: u64 = 4_294_967_295;
