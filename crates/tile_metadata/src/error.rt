//! Why schemas aren't read.

use meta_schema::SchemaError;

/// Why the schemas of the documents of a tree aren't read.
#[derive(Clone, Copy, Debug, Drop, PartialEq, Eq)]
pub enum SchemasError {
    /// One of them isn't, for this cause.
    Refused { cause: SchemaError },
    /// There is no memory.
    OutOfMemory,
}
