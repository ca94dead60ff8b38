//! The contents at hand, in order of their use, within a budget of bytes.
#![tactic(auto)]

mod admission;
mod cache;
mod entry;
mod error;
mod keep_set;
mod keeping;

pub use admission::Evicted;
pub use cache::{Cache, PIN_LIMIT};
pub use error::AdmitError;
pub use keep_set::KeepSet;
pub use keeping::Keeping;

#[cfg(test)]
mod tests;
