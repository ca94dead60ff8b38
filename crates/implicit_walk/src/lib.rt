//! The tiles of an implicit tileset, one by one as they are asked for (OGC 22-025r4, "Implicit
//! Tiling"): which there are by the bits of the subtrees at hand, and the volume, error, contents
//! and children of each. Nothing is stored for a tile.
#![tactic(auto)]

mod contents;
mod implicit_root;
pub mod laws;
mod numbers;
mod place;
mod place_row;
mod presence;
mod subtree_bits;
#[cfg(test)]
mod tests;

pub use contents::{content_at, content_in};
pub use implicit_root::{ImplicitRoot, child_places, error_at, subtree_of, volume_at};
pub use numbers::{begins_subtree, tile_number};
pub use place::Place;
pub use place_row::{CHILD_LIMIT, PlaceRow};
pub use presence::{Presence, exists, exists_below, subtree_at};
pub use subtree_bits::{has_child_subtree, has_tile};
