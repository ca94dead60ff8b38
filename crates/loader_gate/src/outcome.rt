//! What a desk answers, what a job ends with, and what a load was.

use content_digest::Content;
use tile_types::Job;

/// What a job ends with.
#[derive(Debug, Drop)]
pub enum Outcome {
    /// The bytes at the job's address.
    Got(Content),
    /// There is nothing at the address.
    Missing,
    /// What is there is longer than the job's limit.
    TooLong,
    /// The source failed, and has failed so often.
    Failed { count: u64 },
    /// Memory ran out.
    Starved,
}

/// What a desk answers who asks for a job.
#[derive(Debug, Drop)]
pub enum TakenJob {
    Job(Job),
    /// There is no job now.
    Idle,
    /// There is no job any more.
    Ended,
}

/// What became of the load of one job.
#[derive(Clone, Copy, Debug, PartialEq, Eq, Drop)]
pub enum Loaded {
    /// A job was taken and delivered.
    Done,
    /// The desk had none.
    Idle,
    /// The desk has none any more.
    Ended,
}
