//! What is kept of a node below an implicit root.

use crate::stretch::Stretch;
use implicit_walk::Place;

/// What is known of the subtree that a place is in.
#[derive(Clone, Copy, Debug)]
pub enum SubtreeState {
    /// It is read, and its document has this number.
    Read { subtree: u32 },
    /// It isn't loaded, and has this number among what isn't.
    Awaited { waiting: u32 },
}

/// A tile below an implicit root or the root itself, or a node that waits for its subtree (OGC
/// 22-025r4, "Implicit Tiling").
#[derive(Clone, Copy, Debug)]
pub struct PlaceEntry {
    pub at: Place,
    /// The number of the implicit root.
    pub top: u32,
    pub state: SubtreeState,
    /// Its own contents among those of all places.
    pub contents: Stretch,
    /// The external tilesets among its contents.
    pub external: Stretch,
}
