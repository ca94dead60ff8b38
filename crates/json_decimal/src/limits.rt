//! What a JSON text may have at most (RFC 8259, section 9, leaves it to the reader).

/// How deep lists and objects may nest.
pub const MAX_NESTING: usize = 256;

/// How many bytes a text may have.
pub const MAX_LENGTH: usize = 0xFFFF_FFFF;

/// The greatest size of a whole number that is told by its value.
pub const WHOLE_LIMIT: u64 = 0x7FFF_FFFF_FFFF_FFFF;

/// The greatest size of a whole number that is read in 128 bits.
pub const WIDE_LIMIT: u128 = 0x7FFF_FFFF_FFFF_FFFF_FFFF_FFFF_FFFF_FFFF;
