//! Keys that are being fetched.

use tile_types::Key;

/// A key that is being fetched, and the number of the pass that took it.
#[derive(Debug, Drop)]
pub struct Flight {
    pub key: Key,
    pub pass: u32,
}
