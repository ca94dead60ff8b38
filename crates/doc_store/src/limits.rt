//! How much a store holds.

/// How many bytes a document has at most.
pub const DOCUMENT_LIMIT: u32 = 16_777_216;

/// How many documents a store holds at most.
pub const STORE_DOCUMENTS: u32 = 65_535;

/// How many bytes the documents of a store have together at most.
pub const STORE_BYTES: u64 = 268_435_456;
