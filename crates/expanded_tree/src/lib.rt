//! What a tile tree is: its tiles and the nodes that wait for a document, what is known of each
//! node, and the trait of the trees that a walk can go down, whose nodes may be made as they are
//! opened.
#![tactic(auto)]

mod node;
mod tile_tree;

pub use node::{Node, NodeFacts};
pub use tile_tree::TileTree;
