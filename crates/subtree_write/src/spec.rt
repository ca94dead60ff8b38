//! What is written.

use lists::List;

/// Truth values, in order.
pub type BoolList = List<bool>;

/// Rows of truth values, in order.
pub type BoolLists = List<BoolList>;

/// The availability bits of a subtree (OGC 22-025r4, "Availability Bitstreams"): a quadtree or an
/// octree, how many levels it has, which tiles there are, which of them have each content, and
/// which child subtrees there are.
#[derive(Debug, Drop)]
pub struct SubtreeSpec {
    pub octree: bool,
    pub levels: u8,
    pub tiles: BoolList,
    pub contents: BoolLists,
    pub children: BoolList,
}
