//! A node of the list, and what it takes over from the node above it.

use tile_types::{Key, Refine};

/// What a node stands for.
#[derive(Clone, Copy, Debug)]
pub enum NodeSource {
    /// A tile, by the number of its document and its own number there, in preorder.
    Tile { document: u32, tile: u32 },
    /// A tileset that isn't loaded, by its number among what isn't.
    Pending { waiting: u32 },
    /// A tile below an implicit root or the root itself, or a node that waits for its subtree, by
    /// its number among those.
    Implicit { place: u32 },
}

/// A node. Its children stand side by side.
#[derive(Clone, Copy, Debug)]
pub struct TreeNode {
    /// The place of its parent. The root stands at place 0, and has none.
    pub parent: u32,
    /// The number of its computed transform; of a pending node that of its parent. An implicit
    /// tile has that of its implicit root.
    pub transform: u32,
    pub source: NodeSource,
    /// Its number among its parent's children, which its name ends in.
    pub number: u32,
    /// How many external tilesets are followed below its document, one below the other.
    pub levels: u8,
    /// How it is refined.
    pub refine: Refine,
}

/// What a child takes over from its parent.
#[derive(Clone, Copy, Debug)]
pub struct Handed {
    /// The parent's place.
    pub parent: u32,
    /// The number of the parent's computed transform.
    pub transform: u32,
    /// The child's number among the parent's children.
    pub number: u32,
    /// How many external tilesets are followed below the child's document.
    pub levels: u8,
    /// How the parent is refined.
    pub refine: Refine,
}

/// A tileset or a subtree that isn't loaded, and the error of the node that waits for it, in
/// micrometres.
#[derive(Debug, Drop)]
pub struct Waiting {
    pub key: Key,
    pub error: u64,
}
