//! What a frame shows.

use content_digest::ContentFacts;
use lists::List;
use tile_types::Text;

/// A content that a frame shows: the name of its tile, its address, its length in bytes and its
/// digest.
#[derive(Debug, Drop)]
pub struct FrameLine {
    pub tile: Text,
    pub address: Text,
    pub facts: ContentFacts,
}

/// The lines of a frame, in the order of the cut.
pub type FrameLineList = List<FrameLine>;
