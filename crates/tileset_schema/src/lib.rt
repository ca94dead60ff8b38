//! Tileset documents (OGC 22-025r4, "Tileset JSON"): the tree of the tiles that a document writes
//! out, or the first cause why it isn't read.
#![tactic(auto)]

mod content_values;
mod contents;
mod document;
mod error;
mod field;
mod first_content;
mod geometric_errors;
mod implicit;
mod implicit_part;
mod laws;
mod limits;
mod members;
mod numbers;
mod parts;
mod reading;
mod refinement;
mod rest;
mod subdivision;
mod templates;
#[cfg(test)]
mod tests;
mod tile_values;
mod tiles;
mod top;
mod transform;
mod volume;
mod written;

pub use document::Document;
pub use error::DocumentError;
pub use field::Field;
pub use implicit_part::ImplicitPart;
pub use laws::list_gives_tree;
pub use limits::{AVAILABLE_LEVELS, TILE_LIMIT};
pub use reading::read;
pub use written::Written;
