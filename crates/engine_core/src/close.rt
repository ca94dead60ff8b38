//! An engine tries anew what failed, or is closed.

ghost use Rattle.std.specs.Prelude.{◌≡◌, ◌≤◌, ◌++◌, ◌∷◌, [], false, OnErr, OnOk};
ghost use Rattle.engine_state.specs.Journal.{fullness};
ghost use Rattle.engine_core.specs.Mirrors.{Lives, SameJournal, state_of};

use crate::parts::Parts;
use engine_state::Entry;
use std::alloc::AllocError;

impl Parts {
    /// Notes that the engine is closed. It takes no memory.
    pub(crate) fn add_closed(&mut self, pass: u32)
        requires lives { Lives self.old }
        requires open { (state_of self.old).closed ≡ false }
        ensures lives { Lives self.new }
        ensures journal { self.new.entries.items ≡ self.old.entries.items ++ Entry.Closed pass ∷ [] }
        ensures room { self.new.room ≡ self.old.room }
    {
        self.closed = true;
        self.entries.push_reserved(Entry::Closed { pass });
    }

    /// Notes that what failed, and what found no room, may be taken again.
    pub(crate) fn retry(&mut self, pass: u32) -> Result<(), AllocError>
        requires lives { Lives self.old }
        requires open { (state_of self.old).closed ≡ false }
        requires within { fullness self.old.entries.items ≤ self.old.room }
        ensures lives { Lives self.new }
        ensures journal { OnOk result (self.new.entries.items
            ≡ self.old.entries.items ++ Entry.Retried pass ∷ []) }
        ensures err { OnErr result (SameJournal self.old self.new) }
        ensures room { self.new.room ≡ self.old.room }
    {
        self.entries
            .reserve(self.flying.len() + self.frames.len() + 2)?;
        self.attempts.clear();
        self.squeezed.clear();
        self.filled = false;
        self.entries.push_reserved(Entry::Retried { pass });
        Ok(())
    }
}
