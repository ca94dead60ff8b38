//! What a look at the loaded documents gives.

use crate::cause::Cause;
use doc_store::DocStore;
use tile_types::Key;

/// What a look at the loaded documents gives.
#[derive(Drop)]
pub enum Look {
    /// Nothing was printed: what is asked for waits for the documents of these keys, in preorder.
    /// The loaded documents are given back.
    Awaits { keys: Vec<Key>, store: DocStore },
    /// What is asked for was printed, or can't be, and the run ends with this cause.
    Ended(Cause),
}
