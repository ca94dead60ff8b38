//! The faults of sources.

/// How many faults the source of a pass had counted when it last failed.
#[derive(Clone, Copy, Debug, PartialEq, Eq)]
pub struct FaultCount {
    pub pass: u32,
    pub count: u64,
}
