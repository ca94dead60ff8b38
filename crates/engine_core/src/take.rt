//! The best key is taken.

ghost use Rattle.std.specs.Prelude.{◌≡◌, ◌<◌, ◌≤◌, ◌+◌, ◌++◌, ◌∷◌, [], false, true, IfOk, IsTrue, MatchOption, OnErr, OnOk, length, option_map};
ghost use Rattle.tile_types.specs.declared.job.Job.{Job};
ghost use Rattle.engine_state.specs.Agreement.{limit_of};
ghost use Rattle.engine_state.specs.Journal.{fullness};
ghost use Rattle.engine_state.specs.Loading.{best_want, is_key_of, takeable};
ghost use Rattle.engine_core.specs.Mirrors.{HasRoom, Lives, SameJournal, state_of};
ghost use Rattle.engine_core.specs.Taking.{IsBestJob};

use crate::parts::Parts;
use content_digest::CONTENT_LIMIT;
use doc_store::DOCUMENT_LIMIT;
use engine_state::laws::queue_shows_what_is_takeable;
use engine_state::{Entry, Flight};
use std::alloc::{AllocError, Global};
use tile_types::{Job, Key, Kind};

/// How many bytes may come for a key.
fn limit_for(key: &Key) -> u32
    ensures { result ≡ limit_of key.now }
{
    match key.kind {
        Kind::Content => CONTENT_LIMIT,
        Kind::Tileset | Kind::Subtree { .. } => DOCUMENT_LIMIT,
    }
}

impl Parts {
    /// A copy of the key that is taken next.
    fn best_key(&self, alloc: Global) -> Result<Option<Key>, AllocError>
        requires lives { Lives self.now }
        requires filled { self.now.filled ≡ true }
        ensures { IfOk result (λ key. key ≡ option_map (λ w. w.key) (best_want (state_of self.now))) }
    {
        queue_shows_what_is_takeable();
        match self.queue.best() {
            Some(want) => Ok(Some(want.key.copy(alloc)?)),
            None => Ok(None),
        }
    }

    /// Takes memory for one more flight: for its entry, and for what its end keeps.
    fn reserve_flight(&mut self) -> Result<(), AllocError>
        requires lives { Lives self.old }
        requires within { fullness self.old.entries.items ≤ self.old.room }
        ensures lives { Lives self.new }
        ensures same { SameJournal self.old self.new }
        ensures room { OnOk result (HasRoom 1 (length self.new.flying.items + 1) self.new) }
        ensures spare { OnOk result (0 < self.new.flying.spare) }
        ensures filled { self.new.filled ≡ self.old.filled }
    {
        let flights = self.flying.len() + 1;
        self.entries.reserve(flights + self.frames.len() + 2)?;
        self.flying.reserve(1)?;
        self.attempts.reserve(flights)?;
        self.squeezed.reserve(flights)?;
        self.absent.reserve(flights)?;
        self.arena.reserve(flights as u32)
    }

    /// Notes that the best key is taken, of which two copies are given. It takes no memory.
    fn add_taken(&mut self, pass: u32, key: &Key, flown: Key, noted: Key)
        requires lives { Lives self.old }
        requires room { HasRoom 1 (length self.old.flying.items + 1) self.old }
        requires spare { 0 < self.old.flying.spare }
        requires open { (state_of self.old).closed ≡ false }
        requires best { IsTrue (is_key_of key.now (best_want (state_of self.old))) }
        requires flown { flown ≡ key.now }
        requires noted { noted ≡ key.now }
        ensures lives { Lives self.new }
        ensures journal { self.new.entries.items
            ≡ self.old.entries.items ++ Entry.Taken pass key.now ∷ [] }
        ensures room { self.new.room ≡ self.old.room }
    {
        self.queue.hide(key);
        self.flying.push_reserved(Flight { key: flown, pass });
        self.entries
            .push_reserved(Entry::Taken { pass, key: noted });
    }

    /// Takes the best key for a pass, where there is one.
    pub(crate) fn take(&mut self, alloc: Global, pass: u32) -> Result<Option<Job>, AllocError>
        requires lives { Lives self.old }
        requires open { (state_of self.old).closed ≡ false }
        requires within { fullness self.old.entries.items ≤ self.old.room }
        ensures lives { Lives self.new }
        ensures job { IfOk result (λ taken. MatchOption taken
            ((takeable (state_of self.old) ≡ []) × SameJournal self.old self.new)
            (λ job. IsBestJob self.old.entries.items pass job
            × (self.new.entries.items
            ≡ self.old.entries.items ++ Entry.Taken pass job.key ∷ []))) }
        ensures room { self.new.room ≡ self.old.room }
        ensures err { OnErr result (SameJournal self.old self.new) }
    {
        self.fill_queue(alloc)?;
        let Some(key) = self.best_key(alloc)? else {
            return Ok(None);
        };
        let flown = key.copy(alloc)?;
        let noted = key.copy(alloc)?;
        self.reserve_flight()?;
        self.add_taken(pass, &key, flown, noted);
        let limit = limit_for(&key);
        Ok(Some(Job { key, limit, pass }))
    }
}
