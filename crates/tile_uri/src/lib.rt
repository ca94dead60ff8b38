//! Addresses of documents and contents by the URL Standard (https://url.spec.whatwg.org): what a
//! text stands for alone and below a base, and template URIs, which name an address for each tile
//! of an implicit tileset.
#![tactic(auto)]

mod address;
mod base;
mod error;
mod part;
mod placing;
mod plain_path;
mod template;
mod variable;

pub use address::{ADDRESS_LIMIT, Address, is_external};
pub use base::Base;
pub use error::UriError;
pub use template::Template;

#[cfg(test)]
mod tests;
