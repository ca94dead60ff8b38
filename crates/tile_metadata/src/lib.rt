//! The metadata of implicit tiles: the schemas of their documents, their rows in tables, and the
//! lines that are printed of them.
#![tactic(auto)]

mod error;
mod held;
mod lines;
mod meta_lines;
mod open_table;
mod schemas;
mod shown;

pub use error::SchemasError;
pub use lines::{write_meta_line, write_table_line};
pub use meta_lines::MetaLines;
pub use schemas::Schemas;

#[cfg(test)]
mod tests;
