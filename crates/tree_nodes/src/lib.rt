//! The nodes of the expanded tree in one list, each made when its parent is opened.
#![tactic(auto)]

mod bits;
mod building;
mod contents;
mod documents;
mod error;
mod finding;
mod found;
mod implicit_building;
mod implicit_roots;
mod names;
mod node;
mod node_list;
mod place_contents;
mod place_entry;
mod place_name;
mod reading;
mod stretch;
mod table_place;
mod table_tree;
mod tables;
mod top;

pub use error::ListError;
pub use names::{write_name, write_name_over};
pub use node::{NodeSource, TreeNode, Waiting};
pub use node_list::NodeList;
pub use place_entry::{PlaceEntry, SubtreeState};
pub use reading::{content_at, content_count_at, facts_at, pending_at};
pub use stretch::Stretch;
pub use table_place::{TablePlace, table_place_at};
pub use table_tree::TableTree;
pub use tables::Tables;
pub use top::Top;
