//! What a desk is.

ghost use Rattle.std.specs.Prelude.{◌≡◌, ◌++◌, ℕ, List, None, Option, Some, IfErr, IfSome, OnErr, OnOk};
ghost use Rattle.tile_types.specs.declared.job.Job.{Job};
ghost use Rattle.source_port.specs.Library.{Library};
ghost use Rattle.loader_gate.specs.Answers.{AnswerCounts, Counts, NeverFall, job_in};
ghost use Rattle.loader_gate.specs.Outcomes.{IsAbove, IsGot, IsTrueOf, IsWithin, counts_of, latest_count};

use crate::outcome::{Outcome, TakenJob};
use std::alloc::{AllocError, Global};
use tile_types::Job;

/// What gives a pass its jobs, one after the other, and takes what each ends with.
///
/// Contracts also see the desk's basis, plain data that each kind of desk names and that no call
/// changes.
pub trait JobDesk {
    ghost Basis: { Type 0 };

    ghost basis: { Self → Basis };

    /// The library that is loaded from, where it is told.
    ghost library: { Self → Option Library };

    /// The number of its pass.
    ghost pass: { Self → ℕ };

    /// The counts of faults that were delivered by its pass, in order.
    ghost fault_counts: { Self → List ℕ };

    /// The job that is out, if one is.
    ghost job_out: { Self → Option Job };

    /// How often it gave which answer.
    ghost answers: { Self → AnswerCounts };

    /// The next job, which is out from then on.
    fn take_job(&mut self) -> TakenJob
        requires { job_out self.old ≡ None }
        ensures job_out { job_out self.new ≡ job_in result }
        ensures own_pass { IfSome (job_in result) (λ job. job.pass ≡ pass self.old) }
        ensures counts { Counts (answers self.old) (answers self.new) result }
        ensures never_fall { NeverFall (answers self.old) (answers self.new) }
        ensures fault_counts { fault_counts self.new ≡ fault_counts self.old }
        ensures library { library self.new ≡ library self.old }
        ensures pass { pass self.new ≡ pass self.old }
        ensures basis { basis self.new ≡ basis self.old };

    /// Takes what the job that is out ends with. It refuses bytes alone, where there is no memory
    /// to keep them, and hands back what it was given.
    fn deliver(
        &mut self,
        alloc: Global,
        job: Job,
        outcome: Outcome,
    ) -> Result<(), (AllocError, Job, Outcome)>
        requires job_out { job_out self.old ≡ Some job }
        requires within { IsWithin job.limit outcome }
        requires is_true { IsTrueOf (library self.old) job outcome }
        requires above { IsAbove (latest_count (fault_counts self.old)) outcome }
        ensures delivered { OnOk result (job_out self.new ≡ None) }
        ensures fault_counts { OnOk result
            (fault_counts self.new ≡ fault_counts self.old ++ counts_of outcome) }
        ensures only_bytes { OnErr result (IsGot outcome) }
        ensures still_out { OnErr result (job_out self.new ≡ Some job) }
        ensures no_count { OnErr result (fault_counts self.new ≡ fault_counts self.old) }
        ensures handed_back { IfErr result (λ r. (r.1 ≡ job) × (r.2 ≡ outcome)) }
        ensures answers { answers self.new ≡ answers self.old }
        ensures library { library self.new ≡ library self.old }
        ensures pass { pass self.new ≡ pass self.old }
        ensures basis { basis self.new ≡ basis self.old };
}
