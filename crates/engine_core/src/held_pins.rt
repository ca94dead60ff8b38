//! What is kept of a frame that is held.

use tile_types::TextList;

/// A frame that isn't given back yet: its number, and the address of each of its lines, which is
/// pinned once for each.
#[derive(Drop)]
pub(crate) struct FramePins {
    pub(crate) id: u64,
    pub(crate) addresses: TextList,
}
