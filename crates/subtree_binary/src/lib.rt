//! Binary subtrees (OGC 22-025r4, "Subtrees").
#![tactic(auto)]

mod availability;
mod bits;
mod buffers;
mod contents;
mod counts;
mod error;
mod header;
mod members;
mod naturals;
mod reading;
mod storage;
mod subtree;
mod subtrees;
mod views;

pub use bits::{check_range, internal_length};
pub use buffers::Buffer;
pub use error::{SubtreeError, SubtreeField};
pub use members::last;
pub use naturals::natural;
pub use reading::read;
pub use storage::{Storage, read_storage};
pub use subtree::Subtree;
pub use subtrees::Subtrees;
pub use views::View;

#[cfg(test)]
mod tests;
