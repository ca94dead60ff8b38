//! The load of one job.

ghost use Rattle.std.specs.Prelude.{◌≡◌, ◌≢◌, ◌++◌, ◌≤◌, ℕ, List, None, Some};
ghost use Rattle.loader_gate.specs.Answers.{CountsLoad, NeverFall};
ghost use Rattle.loader_gate.specs.Outcomes.{IsAbove, IsLoaded, IsTrueOf, IsWithin, KeepsBytes};
ghost use Rattle.loader_gate.specs.Outcomes.{counts_of, latest_count, outcome_of_failure};
ghost use Rattle.loader_gate.specs.Outcomes.{outcome_without_bytes};
ghost use Rattle.loader_gate.specs.Loads.{AddsCount, FetchesOnce};

use crate::desk::JobDesk;
use crate::gate::Gate;
use crate::outcome::{Loaded, Outcome, TakenJob};
use bytes::Bytes;
use content_digest::Content;
use source_port::{FetchError, Source};
use std::alloc::Global;
use tile_types::Job;

/// Takes a job, fetches its bytes, and delivers what came of it.
///
/// A fetch that fails is delivered with the source's new count of faults; where that count already
/// stood at the last value of its type, and where memory ran out, the job is starved.
pub fn load_one<D: JobDesk, S: Source, G: Gate>(
    alloc: Global,
    desk: &mut D,
    source: &mut S,
    gate: &G,
) -> Loaded
    requires none_out { D.job_out desk.old ≡ None }
    requires one_library { D.library desk.old ≡ S.library source.old }
    requires counted { latest_count (D.fault_counts desk.old) ≤ S.faults source.old }
    ensures none_out { D.job_out desk.new ≡ None }
    ensures counts { CountsLoad (D.answers desk.old) (D.answers desk.new) result }
    ensures never_fall { NeverFall (D.answers desk.old) (D.answers desk.new) }

    // A count is delivered exactly where the source's rose, and is the new one.
    ensures fault_counts { AddsCount (S.faults source.old) (S.faults source.new)
        (D.fault_counts desk.old) (D.fault_counts desk.new) }
    ensures counted { latest_count (D.fault_counts desk.new) ≤ S.faults source.new }
    ensures faults { S.faults source.old ≤ S.faults source.new }

    ensures fetches { FetchesOnce (S.fetches source.old) (S.fetches source.new) }

    // Nothing is fetched without a job.
    ensures unused { result ≢ Loaded.Done → source.new ≡ source.old }
    ensures desk_library { D.library desk.new ≡ D.library desk.old }
    ensures source_library { S.library source.new ≡ S.library source.old }
    ensures pass { D.pass desk.new ≡ D.pass desk.old }
    ensures basis { D.basis desk.new ≡ D.basis desk.old }
{
    match desk.take_job() {
        TakenJob::Job(job) => {
            let outcome = load(alloc, &job, source, gate);
            deliver(alloc, desk, job, outcome);
            Loaded::Done
        }
        TakenJob::Idle => Loaded::Idle,
        TakenJob::Ended => Loaded::Ended,
    }
}

/// Fetches the bytes of a job.
fn load<S: Source, G: Gate>(alloc: Global, job: &Job, source: &mut S, gate: &G) -> Outcome
    ensures loaded { IsLoaded (S.library source.old) job.now
        (record { calls = S.fetches source.old; faults = S.faults source.old })
        (record { calls = S.fetches source.new; faults = S.faults source.new }) result }
    ensures library { S.library source.new ≡ S.library source.old }
{
    let before = source.faults();
    let mut bytes = Vec::new(alloc);
    gate.before_fetch(job.pass);
    let fetched = source.fetch(alloc, job.key.address.as_str(), job.limit, &mut bytes);
    gate.after_fetch(job.pass);
    match fetched {
        Ok(()) => got(bytes),
        Err(error) => outcome_without_bytes(error, before, source.faults()),
    }
}

/// What bytes that were fetched are delivered as. To count their owners takes memory, but where
/// there are none.
fn got(bytes: Vec<u8>) -> Outcome
    ensures { KeepsBytes bytes.items result }
{
    match Bytes::from_vec(bytes) {
        Ok(bytes) => Outcome::Got(Content::new(bytes)),
        Err(_) => Outcome::Starved,
    }
}

/// What a fetch that gave no bytes is delivered as, with the counts of faults before it and behind
/// it. It is starved where memory ran out, and where a failure raised no count.
fn outcome_without_bytes(error: FetchError, before: u64, count: u64) -> Outcome
    ensures { result ≡ outcome_without_bytes error before count }
{
    match error {
        FetchError::Missing => Outcome::Missing,
        FetchError::TooLong => Outcome::TooLong,
        FetchError::Failed => failed(before, count),
        FetchError::OutOfMemory => Outcome::Starved,
    }
}

/// What a failure is delivered as, with the counts of faults before it and behind it.
fn failed(before: u64, count: u64) -> Outcome
    ensures { result ≡ outcome_of_failure before count }
{
    if before < count {
        Outcome::Failed { count }
    } else {
        Outcome::Starved
    }
}

/// Delivers what a job ends with. Where there is no memory to keep its bytes it is starved.
fn deliver<D: JobDesk>(alloc: Global, desk: &mut D, job: Job, outcome: Outcome)
    requires job_out { D.job_out desk.old ≡ Some job }
    requires within { IsWithin job.limit outcome }
    requires is_true { IsTrueOf (D.library desk.old) job outcome }
    requires above { IsAbove (latest_count (D.fault_counts desk.old)) outcome }
    ensures delivered { D.job_out desk.new ≡ None }
    ensures fault_counts { D.fault_counts desk.new ≡ D.fault_counts desk.old ++ counts_of outcome }
    ensures answers { D.answers desk.new ≡ D.answers desk.old }
    ensures library { D.library desk.new ≡ D.library desk.old }
    ensures pass { D.pass desk.new ≡ D.pass desk.old }
    ensures basis { D.basis desk.new ≡ D.basis desk.old }
{
    match desk.deliver(alloc, job, outcome) {
        Ok(()) => {}
        Err((_, job, _)) => match desk.deliver(alloc, job, Outcome::Starved) {
            Ok(()) => {}
            Err(_) => unreachable!(),
        },
    }
}
