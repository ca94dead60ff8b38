//! The calls of an engine behind its desk, but for those of loads.

ghost use Rattle.std.specs.Prelude.{◌≡◌, ◌++◌, ◌∷◌, [], IfErr, IfOk, IsTrue, OnErr, OnOk, false, true};
ghost use Rattle.engine_state.specs.Agreement.{Agrees};
ghost use Rattle.engine_state.specs.Frames.{is_held};
ghost use Rattle.engine_state.specs.Journal.{legal, replay};
ghost use Rattle.engine_state.specs.Laws.{AreNumbered};
ghost use Rattle.engine_core.specs.Looking.{IsNextFrame, IsSettledFrame, RefusesLook, RefusesSettled, looked};
ghost use Rattle.engine_core.specs.Taking.{RefusesRetry};

use crate::desk::CoreDesk;
use engine_core::{LookError, RetryError};
use engine_state::{Entry, JournalList};
use error_test::View;
use frame_pins::Frame;
use source_port::LibraryName;

impl<N: LibraryName> CoreDesk<N> {
    /// `Core::look` of pass 0. The desk ends with loads.
    pub(crate) fn look(&mut self, viewer: u8, view: View) -> Result<Frame, LookError>
        ensures is_open { (replay self.old.engine.journal).closed ≡ false }
        ensures frame { IfOk result (IsNextFrame self.old.engine.journal viewer view) }
        ensures journal { OnOk result (self.new.engine.journal ≡ self.old.engine.journal
            ++ looked self.old.engine.journal 0 viewer view false ∷ []) }
        ensures refused { IfErr result (RefusesLook self.old.engine.journal self.new.engine.journal
            self.old.engine.room 0 viewer view) }
        ensures room { self.new.engine.room ≡ self.old.engine.room }
        ensures library { self.new.library ≡ self.old.library }
    {
        self.pause();
        self.core.look(self.alloc, 0, viewer, view)
    }

    /// `Core::look_settled` of pass 0. The desk ends with loads.
    pub(crate) fn look_settled(&mut self, viewer: u8) -> Result<Frame, LookError>
        ensures is_open { (replay self.old.engine.journal).closed ≡ false }
        ensures frame { IfOk result (IsSettledFrame self.old.engine.journal viewer) }
        ensures journal { IfOk result (λ frame. self.new.engine.journal ≡ self.old.engine.journal
            ++ looked self.old.engine.journal 0 viewer frame.view true ∷ []) }
        ensures refused { IfErr result (RefusesSettled self.old.engine.journal
            self.new.engine.journal self.old.engine.room 0 viewer) }
        ensures room { self.new.engine.room ≡ self.old.engine.room }
        ensures library { self.new.library ≡ self.old.library }
    {
        self.pause();
        self.core.look_settled(self.alloc, 0, viewer)
    }

    /// `Core::give_back` of pass 0. The desk ends with loads. It takes no memory.
    pub(crate) fn give_back(&mut self, frame: Frame)
        requires { IsTrue (is_held (replay self.old.engine.journal).frames frame.id) }
        ensures journal { self.new.engine.journal
            ≡ self.old.engine.journal ++ Entry.Returned 0 frame.id ∷ [] }
        ensures room { self.new.engine.room ≡ self.old.engine.room }
        ensures library { self.new.library ≡ self.old.library }
    {
        self.pause();
        self.core.give_back(0, frame);
    }

    /// `Core::retry` of pass 0. The desk ends with loads.
    pub(crate) fn retry(&mut self) -> Result<(), RetryError>
        ensures is_open { (replay self.old.engine.journal).closed ≡ false }
        ensures journal { OnOk result (self.new.engine.journal
            ≡ self.old.engine.journal ++ Entry.Retried 0 ∷ []) }
        ensures refused { IfErr result (RefusesRetry self.old.engine.journal self.old.engine.room) }
        ensures err { OnErr result (self.new.engine ≡ self.old.engine) }
        ensures room { self.new.engine.room ≡ self.old.engine.room }
        ensures library { self.new.library ≡ self.old.library }
    {
        self.pause();
        self.core.retry(0)
    }

    /// The numbers of the frames that its engine's state holds rise.
    pub(crate) fn frames_are_numbered(&self)
        ensures { AreNumbered (replay self.now.engine.journal) }
    {
        engine_state::laws::held_frames_are_numbered();
        let _ = self.core.journal();
    }

    /// Closes the engine, and gives its journal. It takes no memory.
    pub(crate) fn close(self) -> JournalList
        ensures journal { result ≡ self.engine.journal ++ Entry.Closed 0 ∷ [] }
        ensures legal { IsTrue (legal result) }
        ensures agrees { Agrees self.library result }
    {
        let CoreDesk { mut core, .. } = self;
        core.close(0);
        core.finish()
    }
}
