//! What a cache keeps at an address.

use content_digest::Content;

/// A resident content, and how often it is pinned.
#[derive(Drop)]
pub(crate) struct Entry {
    pub(crate) content: Content,
    pub(crate) pins: u128,
}
