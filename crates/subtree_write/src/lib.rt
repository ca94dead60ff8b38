//! Writing binary subtrees (OGC 22-025r4, "Subtrees").
#![tactic(auto)]

mod available;
mod laws;
mod packing;
mod spec;
mod streams;
mod texts;
mod writing;

pub use laws::reads_back;
pub use spec::{BoolList, BoolLists, SubtreeSpec};
pub use writing::write;

#[cfg(test)]
mod tests;
