//! A want of the queue, and what became of it.

ghost use Rattle.std.specs.Prelude.{◌≡◌};
ghost use Rattle.load_queue.specs.Entries.{IsWithin, is_shown, state_after, score};

use crate::rank::Rank;
use tile_types::Want;

/// The rank of what isn't shown, which is greater than that of any want.
pub const PASSED_OVER: u64 = u64::MAX;

/// What became of a want since the list was set.
#[derive(Clone, Copy)]
pub enum State {
    Shown,
    Hidden,
    Dropped,
}

/// What is done to the want of a key.
#[derive(Clone, Copy)]
pub enum Change {
    Hide,
    Show,
    Drop,
}

/// A want of the list that was set, and what became of it.
#[derive(Drop)]
pub struct Entry {
    pub want: Want,
    pub state: State,
}

impl State {
    /// The state after a change: a dropped want stays dropped.
    pub fn after(self, change: Change) -> State
        ensures { result ≡ state_after change self }
    {
        match (self, change) {
            (State::Dropped, _) | (_, Change::Drop) => State::Dropped,
            (_, Change::Hide) => State::Hidden,
            (_, Change::Show) => State::Shown,
        }
    }
}

impl Entry {
    /// The rank of the want where it is shown, else that of what is passed over.
    pub fn score<R: Rank>(&self, rank: &R) -> u64
        ensures score { result ≡ score (R.order rank.now) self.now }
        ensures within { IsWithin (R.order rank.now) self.now }
    {
        let rank = rank.rank_of(&self.want.facts);
        match self.state {
            State::Shown => rank,
            State::Hidden | State::Dropped => PASSED_OVER,
        }
    }

    /// Whether the want is shown.
    pub fn is_shown(&self) -> bool
        ensures { result ≡ is_shown self.now }
    {
        match self.state {
            State::Shown => true,
            State::Hidden | State::Dropped => false,
        }
    }
}
