//! What is known of a tileset, and of a place below an implicit root.

use tile_types::Key;

/// What is known of a tileset.
#[derive(Debug, Drop)]
pub(crate) enum Found {
    /// It isn't loaded, and its key is this.
    Waiting { key: Key },
    /// It leaves no node.
    Lost,
    /// It is read, as the document of this number.
    Here { document: u32 },
}

/// What is found at a place below an implicit root.
#[derive(Debug, Drop)]
pub(crate) enum FoundTile {
    /// There is no tile.
    No,
    /// There is one, and the document of its subtree has this number.
    Read { subtree: u32 },
    /// The subtree of this key decides, once it is loaded.
    Awaited { key: Key },
}
