//! The sizes within which planes lie, and the levels to which a box is divided.

/// The greatest size of a component of a plane's normal.
pub const NORMAL_LIMIT: u64 = 1 << 20;

/// The greatest size of a plane's offset, in millimetres times the length of its normal.
pub const OFFSET_LIMIT: u64 = 1 << 57;

/// The deepest level to which a box is divided.
pub const LEVEL_LIMIT: u8 = 29;

/// How many cells stand side by side on the deepest level.
pub const CELL_LIMIT: u64 = 1 << LEVEL_LIMIT;
