//! The documents at hand, by key: which are loaded, which are absent, and what each stands for.
#![tactic(auto)]

mod added;
mod kinds;
mod laws;
mod limits;
mod loaded_document;
mod reading;
mod state;
mod store;
#[cfg(test)]
mod tests;

pub use added::Added;
pub use kinds::is_document_kind;
pub use laws::documents_keep_their_numbers;
pub use limits::{DOCUMENT_LIMIT, STORE_BYTES, STORE_DOCUMENTS};
pub use state::DocState;
pub use store::DocStore;
