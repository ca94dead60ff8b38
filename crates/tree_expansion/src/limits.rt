//! How deep tilesets nest.

/// How many external tilesets may lie one below the other; what would lie deeper isn't followed.
pub const NESTING_LIMIT: u32 = 16;
