//! How tiles are refined.

/// How a tile is refined by its children (OGC 22-025r4, "Refinement").
#[derive(Clone, Copy, Debug, PartialEq, Eq)]
pub enum Refine {
    /// The children are shown beside the tile.
    Add,
    /// The children are shown in place of the tile.
    Replace,
}
