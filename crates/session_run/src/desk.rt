//! The desk of an engine on one thread.

ghost use Rattle.std.specs.Prelude.{◌≡◌, ◌≤◌, ◌<◌, ◌^◌, None, Some, length};
ghost use Rattle.source_port.specs.Counts.{HasRisen};
ghost use Rattle.session_run.specs.Desks.{HasLoaded, HasStopped, IsIdle, IsServed};
ghost use Rattle.session_run.specs.Sessions.{IsCauseAt};

use crate::error::SessionError;
use crate::stop::Stop;
use engine_core::{Core, TakeError};
use loader_gate::{JobDesk, Outcome, TakenJob};
use source_port::LibraryName;
use std::alloc::{AllocError, Global};
use std::marker::Model;
use tile_types::Job;

/// The desk of an engine that one thread uses, as pass 0: its jobs are the engine's best keys, and
/// what they end with arrives there.
///
/// Its basis is the journal as it was when the desk began with loads, since when there were loads
/// alone, and how many entries it may have.
#[derive(Drop)]
pub(crate) struct CoreDesk<N: LibraryName> {
    pub(crate) core: Core,
    /// Names the library that is loaded from.
    pub(crate) name: N,
    pub(crate) alloc: Global,
    /// How many entries there were when it began with loads, or 0 where other calls may come.
    pub(crate) begun: usize,
    /// How often it gave which answer since then.
    jobs: u64,
    pub(crate) idle: u64,
    pub(crate) ended: u64,
    /// Why there is no job any more.
    stop: Option<Stop>,
}

impl<N: LibraryName> Model for CoreDesk<N> {
    ghost use Rattle.session_run.specs.Desks.{DeskParts, IsDesk};

    ghost Value = { DeskParts };

    ghost view = { λ d. record {
      engine = d.core;
      library = N.library d.name;
      begun = d.begun;
      jobs = d.jobs;
      idle = d.idle;
      ended = d.ended;
      stop = d.stop;
    } };

    ghost invariant = { λ d. IsDesk (record {
      engine = d.core;
      library = N.library d.name;
      begun = d.begun;
      jobs = d.jobs;
      idle = d.idle;
      ended = d.ended;
      stop = d.stop;
    }) };
}

impl<N: LibraryName> CoreDesk<N> {
    /// The desk of an engine, whose library is named.
    pub(crate) fn new(alloc: Global, core: Core, name: N) -> CoreDesk<N>
        requires served { IsServed (N.library name) core }
        ensures engine { result.engine ≡ core }
        ensures library { result.library ≡ N.library name }
    {
        CoreDesk {
            core,
            name,
            alloc,
            begun: 0,
            jobs: 0,
            idle: 0,
            ended: 0,
            stop: None,
        }
    }

    /// Begins with loads: the entries that there are count as those before them. It takes no memory.
    pub(crate) fn begin(&mut self)
        ensures engine { self.new.engine ≡ self.old.engine }
        ensures library { self.new.library ≡ self.old.library }
        ensures begun { self.new.begun ≡ length self.old.engine.journal }
        ensures some { 0 < self.new.begun }
        ensures idle { self.new.idle ≡ 0 }
        ensures ended { self.new.ended ≡ 0 }
    {
        self.begun = self.core.journal().len();
        self.forget();
    }

    /// Ends with loads: other calls may follow. It takes no memory.
    pub(crate) fn pause(&mut self)
        ensures engine { self.new.engine ≡ self.old.engine }
        ensures library { self.new.library ≡ self.old.library }
        ensures begun { self.new.begun ≡ 0 }
        ensures jobs { self.new.jobs ≡ 0 }
        ensures idle { self.new.idle ≡ 0 }
        ensures ended { self.new.ended ≡ 0 }
        ensures stop { self.new.stop ≡ None }
    {
        self.begun = 0;
        self.forget();
    }

    /// Forgets which answers it gave. It takes no memory.
    fn forget(&mut self)
        ensures engine { self.new.engine ≡ self.old.engine }
        ensures library { self.new.library ≡ self.old.library }
        ensures begun { self.new.begun ≡ self.old.begun }
        ensures jobs { self.new.jobs ≡ 0 }
        ensures idle { self.new.idle ≡ 0 }
        ensures ended { self.new.ended ≡ 0 }
        ensures stop { self.new.stop ≡ None }
    {
        self.jobs = 0;
        self.idle = 0;
        self.ended = 0;
        self.stop = None;
    }

    /// How many jobs it gave out since it began.
    pub(crate) fn jobs(&self) -> u64
        ensures jobs { result ≡ self.now.jobs }
        ensures few { self.now.jobs < 2 ^ 64 }
    {
        self.jobs
    }

    /// Since it began there were loads alone, and where it answered that there is no job now, nothing
    /// may be taken.
    pub(crate) fn tells_loads(&self)
        ensures loaded { 0 < self.now.begun → HasLoaded self.now.begun self.now.engine.journal }
        ensures idle { 0 < self.now.idle → IsIdle self.now.engine.journal }
    {
        let _ = &self.idle;
    }

    /// Why there is no job any more, where that was answered.
    pub(crate) fn cause(&self) -> SessionError
        requires { 0 < self.now.ended }
        ensures { IsCauseAt self.now.engine.journal self.now.engine.room result }
    {
        match self.stop {
            Some(Stop::JournalFull) => SessionError::JournalFull {
                entries: self.core.journal().len() as u64,
            },
            Some(Stop::OutOfMemory) => SessionError::OutOfMemory,
            None => unreachable!(),
        }
    }
}

impl<N: LibraryName> JobDesk for CoreDesk<N> {
    ghost use Rattle.std.specs.Prelude.{List, ℕ, take};
    ghost use Rattle.engine_state.specs.declared.entry.Entry.{Entry};
    ghost use Rattle.engine_state.specs.Journal.{replay};
    ghost use Rattle.session_run.specs.Desks.{job_of};
    ghost use Rattle.session_run.specs.Loading.{counts_in};

    ghost Basis = { List Entry × ℕ };

    ghost basis = { λ d. (take d.begun d.engine.journal, d.engine.room) };

    ghost library = { λ d. d.library };

    ghost pass = { λ d. 0 };

    ghost fault_counts = { λ d. counts_in d.engine.journal };

    ghost job_out = { λ d. job_of (replay d.engine.journal).flying };

    ghost answers = { λ d. record { jobs = d.jobs; idle = d.idle; ended = d.ended } };

    fn take_job(&mut self) -> TakenJob {
        match self.core.take(self.alloc, 0) {
            Ok(job) => {
                // There are more entries than jobs.
                let _ = self.core.journal().len();
                self.jobs += 1;
                TakenJob::Job(job)
            }
            Err(TakeError::Idle) => {
                self.idle = self.idle.saturating_add(1);
                TakenJob::Idle
            }
            Err(TakeError::JournalFull { .. }) => self.end_by(Stop::JournalFull),
            Err(TakeError::OutOfMemory) => self.end_by(Stop::OutOfMemory),
            Err(TakeError::Closed) => unreachable!(),
        }
    }

    fn deliver(
        &mut self,
        alloc: Global,
        job: Job,
        outcome: Outcome,
    ) -> Result<(), (AllocError, Job, Outcome)> {
        self.core.arrive(alloc, 0, job, outcome)
    }
}

impl<N: LibraryName> CoreDesk<N> {
    /// There is no job any more.
    fn end_by(&mut self, stop: Stop) -> TakenJob
        requires { HasStopped self.old.engine (Some stop) }
        ensures ended { result ≡ TakenJob.Ended }
        ensures engine { self.new.engine ≡ self.old.engine }
        ensures library { self.new.library ≡ self.old.library }
        ensures begun { self.new.begun ≡ self.old.begun }
        ensures jobs { self.new.jobs ≡ self.old.jobs }
        ensures idle { self.new.idle ≡ self.old.idle }
        ensures counted { HasRisen self.old.ended self.new.ended }
        ensures never_falls { self.old.ended ≤ self.new.ended }
    {
        self.ended = self.ended.saturating_add(1);
        self.stop = Some(stop);
        TakenJob::Ended
    }
}
