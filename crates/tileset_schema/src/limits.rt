//! How large a document may be.

/// How many tiles a document has at most.
pub const TILE_LIMIT: u32 = 65_535;

/// How many levels an implicit tileset has at most.
pub const AVAILABLE_LEVELS: u8 = 30;
