//! What a frame is a list of.

use content_digest::Content;
use lists::List;
use tile_types::Text;

/// A content that is shown: the name of its tile, its address, and the content itself.
#[derive(Debug, Drop)]
pub struct Shown {
    pub tile: Text,
    pub address: Text,
    pub content: Content,
}

/// Contents that are shown, in the order of the cut and of their tile's contents.
pub type ShownList = List<Shown>;
