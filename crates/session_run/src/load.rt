//! How an engine behind its desk loads.

ghost use Rattle.std.specs.Prelude.{◌≡◌, ◌≤◌, ◌<◌, [], IfErr, OnOk, take};
ghost use Rattle.loader_gate.specs.Outcomes.{latest_count};
ghost use Rattle.engine_state.specs.Journal.{replay};
ghost use Rattle.session_run.specs.Desks.{IsIdle};
ghost use Rattle.session_run.specs.Loading.{Loads, counts_in};
ghost use Rattle.session_run.specs.Sessions.{IsCauseAt};

use crate::desk::CoreDesk;
use crate::error::SessionError;
use loader_gate::{Loaded, OpenGate, load_one};
use source_port::{LibraryName, Source};
use std::alloc::Global;

impl<N: LibraryName> CoreDesk<N> {
    /// Loads from the source until nothing may be taken any more.
    ///
    /// Errors: `JournalFull`, or `OutOfMemory`.
    pub(crate) fn load_all<S: Source>(
        &mut self,
        alloc: Global,
        source: &mut S,
    ) -> Result<(), SessionError>
        requires one_library { S.library source.old ≡ self.old.library }
        requires counted { latest_count (counts_in self.old.engine.journal) ≤ S.faults source.old }
        requires none_flies { (replay self.old.engine.journal).flying ≡ [] }
        ensures loads { Loads self.old.engine.journal self.new.engine.journal }
        ensures idle { OnOk result (IsIdle self.new.engine.journal) }
        ensures stopped { IfErr result (IsCauseAt self.new.engine.journal self.old.engine.room) }
        ensures room { self.new.engine.room ≡ self.old.engine.room }
        ensures library { self.new.library ≡ self.old.library }
        ensures none_flies { (replay self.new.engine.journal).flying ≡ [] }
        ensures counted { latest_count (counts_in self.new.engine.journal) ≤ S.faults source.new }
        ensures source { S.library source.new ≡ S.library source.old }
    {
        self.begin();
        let loaded = self.load_rest(alloc, source);
        self.tells_loads();
        loaded
    }

    /// Loads until the desk answers that there is no job.
    fn load_rest<S: Source>(&mut self, alloc: Global, source: &mut S) -> Result<(), SessionError>
        requires one_library { S.library source.old ≡ self.old.library }
        requires counted { latest_count (counts_in self.old.engine.journal) ≤ S.faults source.old }
        requires none_flies { (replay self.old.engine.journal).flying ≡ [] }
        ensures begun { take self.new.begun self.new.engine.journal
            ≡ take self.old.begun self.old.engine.journal }
        ensures idle { OnOk result (0 < self.new.idle) }
        ensures stopped { IfErr result (IsCauseAt self.new.engine.journal self.new.engine.room) }
        ensures room { self.new.engine.room ≡ self.old.engine.room }
        ensures library { self.new.library ≡ self.old.library }
        ensures none_flies { (replay self.new.engine.journal).flying ≡ [] }
        ensures counted { latest_count (counts_in self.new.engine.journal) ≤ S.faults source.new }
        ensures source { S.library source.new ≡ S.library source.old }
    {
        loop {
            // Their number rises with each, and stays within its type.
            let _ = self.jobs();
            match load_one(alloc, self, source, &OpenGate) {
                Loaded::Done => {}
                Loaded::Idle => return Ok(()),
                Loaded::Ended => return Err(self.cause()),
            }
        }
    }
}
