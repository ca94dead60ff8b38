//! That a node names a content.

/// The number of a content, and that of a node that names it.
#[derive(Clone, Copy)]
pub struct NamePair {
    pub content: u32,
    pub user: u32,
}
