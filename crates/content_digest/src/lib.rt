//! Contents with their SHA-256 digests, what is kept of them without their bytes, and the digests of
//! many contents at once.
#![tactic(auto)]

mod content;
mod digest_list;
mod facts;
mod limits;

pub use content::Content;
pub use digest_list::{DigestList, digests};
pub use facts::ContentFacts;
pub use limits::CONTENT_LIMIT;

#[cfg(test)]
mod tests;
