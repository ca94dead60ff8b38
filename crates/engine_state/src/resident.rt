//! Contents at hand.

use content_digest::ContentFacts;
use tile_types::Text;

/// A content at hand: its address, its length in bytes and its digest.
#[derive(Debug, Drop)]
pub struct Resident {
    pub address: Text,
    pub facts: ContentFacts,
}
