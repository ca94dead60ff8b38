//! A desk that has one job.

ghost use Rattle.std.specs.Prelude.{◌≡◌, ◌≤◌, length, true};
ghost use Rattle.std.specs.Option.{is_none};
ghost use Rattle.tile_types.specs.declared.text.TheConstants.{SHORT_TEXT};

use crate::desk::JobDesk;
use crate::outcome::{Outcome, TakenJob};
use source_port::LibraryName;
use std::alloc::{AllocError, Global};
use tile_types::{Job, Key, Kind, Text};

/// A desk whose one job is given out once. Then it is idle once, and from then on it has ended.
#[derive(Drop)]
pub(crate) struct TestDesk<N: LibraryName> {
    /// Names the library.
    pub(crate) name: N,
    pub(crate) alloc: Global,
    pub(crate) address: Text,
    pub(crate) limit: u32,
    pub(crate) pass: u32,
    /// Whether there is no memory for the next bytes.
    pub(crate) refuses: bool,
    pub(crate) out: bool,
    pub(crate) delivered: Option<Outcome>,
    pub(crate) jobs: u64,
    pub(crate) idle: u64,
    pub(crate) ended: u64,
    ghost short: { length address ≤ SHORT_TEXT },
    ghost undelivered: { out ≡ true → is_none delivered ≡ true },
    ghost taken: { out ≡ true → jobs ≡ 1 },
    ghost untaken: { jobs ≡ 0 → is_none delivered ≡ true },
}

impl<N: LibraryName> TestDesk<N> {
    ghost use Rattle.std.specs.Prelude.{◌≡◌};
    ghost use Rattle.tile_types.specs.declared.job.Job.{Job};
    ghost use Rattle.tile_types.specs.declared.key.Key.{Key};
    ghost use Rattle.tile_types.specs.declared.key.Kind.TheVariants.{Content};

    /// The one job.
    fn job(&self) -> Job
        ensures { let key : Key = record { kind = Content; address = self.now.address } in
            let job : Job = record { key = key; limit = self.now.limit; pass = self.now.pass } in
            result ≡ job }
    {
        match self.address.copy(self.alloc) {
            Ok(address) => Job {
                key: Key {
                    kind: Kind::Content,
                    address,
                },
                limit: self.limit,
                pass: self.pass,
            },
            Err(_) => unreachable!(),
        }
    }

    /// What the job ended with.
    pub(crate) fn into_delivered(self) -> Option<Outcome> {
        let TestDesk {
            name: _,
            alloc: _,
            address: _,
            limit: _,
            pass: _,
            refuses: _,
            out: _,
            delivered,
            jobs: _,
            idle: _,
            ended: _,
        } = self;
        delivered
    }
}

impl<N: LibraryName> JobDesk for TestDesk<N> {
    ghost use Rattle.std.specs.Prelude.{[], None, Some, if◌then◌else◌};
    ghost use Rattle.std.specs.Option.{option_map_or};
    ghost use Rattle.tile_types.specs.declared.job.Job.{Job};
    ghost use Rattle.tile_types.specs.declared.key.Key.{Key};
    ghost use Rattle.tile_types.specs.declared.key.Kind.TheVariants.{Content};
    ghost use Rattle.loader_gate.specs.Outcomes.{counts_of};

    ghost Basis = { Unit {0} };

    ghost basis = { λ _. tt };

    ghost library = { λ d. N.library d.name };

    ghost pass = { λ d. d.pass };

    ghost fault_counts = { λ d. option_map_or counts_of d.delivered [] };

    ghost job_out = { λ d. if d.out then Some (record {
      key = record { kind = Content; address = d.address };
      limit = d.limit;
      pass = d.pass;
    }) else None };

    ghost answers = { λ d. record { jobs = d.jobs; idle = d.idle; ended = d.ended } };

    fn take_job(&mut self) -> TakenJob {
        if self.jobs == 0 {
            let job = self.job();
            self.jobs = 1;
            self.out = true;
            return TakenJob::Job(job);
        }
        if self.idle == 0 {
            self.idle = 1;
            return TakenJob::Idle;
        }
        self.ended = self.ended.saturating_add(1);
        TakenJob::Ended
    }

    fn deliver(
        &mut self,
        _alloc: Global,
        job: Job,
        outcome: Outcome,
    ) -> Result<(), (AllocError, Job, Outcome)> {
        if self.refuses {
            if let Outcome::Got(_) = &outcome {
                return Err((AllocError, job, outcome));
            }
        }
        self.out = false;
        self.delivered = Some(outcome);
        Ok(())
    }
}
