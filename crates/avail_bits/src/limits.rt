//! How many levels a subtree has (OGC 22-025r4, "Subtrees").

/// How many levels a subtree of a quadtree has at most.
pub const QUADTREE_SUBTREE_LEVELS: u8 = 12;

/// How many levels a subtree of an octree has at most.
pub const OCTREE_SUBTREE_LEVELS: u8 = 8;
