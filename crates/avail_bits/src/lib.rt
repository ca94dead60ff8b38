//! Availability bits of a subtree, and Morton numbers (OGC 22-025r4, "Implicit tiling").
#![tactic(auto)]

mod bits;
mod error;
mod gather;
mod laws;
mod limits;
mod morton;
mod spread;
mod words;

pub use bits::Bits;
pub use error::BitsError;
pub use laws::{further_digits_add_nothing, places_have_their_own_numbers};
pub use limits::{OCTREE_SUBTREE_LEVELS, QUADTREE_SUBTREE_LEVELS};
pub use morton::{MORTON_DIGITS, morton2, morton3, unmorton2, unmorton3};

#[cfg(test)]
mod tests;
