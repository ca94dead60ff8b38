//! Loads that are on their way.

use crate::key::Key;

/// A load that a pass has taken: its key, how many bytes it may have and the number of the pass. Loaders,
/// which are still to come, hand it from the one who takes it to the one who delivers.
#[derive(Debug, Drop)]
pub struct Job {
    pub key: Key,
    pub limit: u32,
    pub pass: u32,
}
