//! A viewer looks once nothing is left to load.

ghost use Rattle.std.specs.Prelude.{◌≡◌, ◌≤◌, ◌↔◌, ◌<◌, ◌++◌, ◌∷◌, [], false, true, IfErr, IfOk, IsTrue, OnErr, OnOk, length};
ghost use Rattle.engine_state.specs.Journal.{fullness};
ghost use Rattle.engine_state.specs.Loading.{is_settled, takeable};
ghost use Rattle.engine_core.specs.Looking.{IsSettledFrame, RefusesSettled, looked};
ghost use Rattle.engine_core.specs.Mirrors.{Lives, SameJournal, state_of};

use crate::error::LookError;
use crate::parts::Parts;
use crate::views::latest_view;
use frame_pins::Frame;
use std::alloc::{AllocError, Global};

/// What is left to load: how many keys are being fetched, and how many may be taken.
#[derive(Clone, Copy)]
struct Left {
    flying: u32,
    takeable: u64,
}

/// A length that is no more than a journal's room.
fn count_within(length: usize, room: u32) -> u32
    requires { length ≤ room }
    ensures { result ≡ length }
{
    length as u32
}

impl Parts {
    /// What is left to load.
    fn left_to_load(&mut self, alloc: Global) -> Result<Left, AllocError>
        requires lives { Lives self.old }
        requires within { fullness self.old.entries.items ≤ self.old.room }
        ensures lives { Lives self.new }
        ensures same { SameJournal self.old self.new }
        ensures flying { IfOk result (λ left. left.flying ≡ length (state_of self.old).flying) }
        ensures takeable { IfOk result (λ left. left.takeable
            ≡ length (takeable (state_of self.old))) }
    {
        engine_state::laws::queue_shows_what_is_takeable();
        self.fill_queue(alloc)?;
        Ok(Left {
            flying: count_within(self.flying.len(), self.room),
            takeable: self.queue.shown_count() as u64,
        })
    }

    /// Shows a viewer the cut of its latest view, where nothing is left to load.
    pub(crate) fn show_settled(
        &mut self,
        alloc: Global,
        pass: u32,
        viewer: u8,
    ) -> Result<Frame, LookError>
        requires lives { Lives self.old }
        requires open { (state_of self.old).closed ≡ false }
        requires within { fullness self.old.entries.items ≤ self.old.room }
        ensures lives { Lives self.new }
        ensures frame { IfOk result (IsSettledFrame self.old.entries.items viewer) }
        ensures journal { IfOk result (λ frame. self.new.entries.items ≡ self.old.entries.items
            ++ looked self.old.entries.items pass viewer frame.view true ∷ []) }
        ensures refused { IfErr result (RefusesSettled self.old.entries.items
            self.new.entries.items self.old.room pass viewer) }
        ensures room { self.new.room ≡ self.old.room }
    {
        engine_state::laws::same_views_are_equal();
        let entries = self.entries.len() as u64;
        let Some(view) = latest_view(&self.views, viewer) else {
            return Err(LookError::NoView { entries });
        };
        let left = self.left_to_load(alloc)?;
        if left.flying > 0 || left.takeable > 0 {
            return Err(LookError::NotSettled {
                entries,
                flying: left.flying,
                takeable: left.takeable,
            });
        }
        self.show(alloc, pass, viewer, view, true)
    }
}
