//! The expanded tree of a store's documents, written out node by node.
#![tactic(auto)]

mod children;
mod error;
mod limits;
mod plain_list;
mod preorder;
mod tree;

pub use error::PlainError;
pub use limits::NODE_LIMIT;
pub use tree::PlainTree;

#[cfg(test)]
mod tests;
