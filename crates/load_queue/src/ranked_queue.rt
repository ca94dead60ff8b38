//! The queue of what is wanted.

ghost use Rattle.std.specs.Prelude.{◌≡◌, [], IfOk, OnOk, OnErr, filter, map, not, option_map, true};
ghost use Rattle.std.specs.Prelude.{false, length, count_by, IsOk};
ghost use Rattle.std.specs.List.{AllByRecursion, IsDistinct};
ghost use Rattle.tile_types.specs.Keys.{same_key};
ghost use Rattle.load_queue.specs.Best.{best};
ghost use Rattle.load_queue.specs.Queues.{fresh_want, other_wants, shown_wants, with_hidden};
ghost use Rattle.load_queue.specs.Entries.{IsWithin, changed_queue, is_shown, score};

use crate::entry::{Change, Entry, PASSED_OVER};
use crate::keyed_wants::KeyedWants;
use crate::least_ranks::LeastRanks;
use crate::rank::Rank;
use std::alloc::{AllocError, Global};
use std::marker::Model;
use tile_types::{Key, Order, Want, WantList};

/// The wanted keys in order, some of them hidden, and what ranks them.
///
/// Contracts see the order by which they are ranked, and the wants with whether each is hidden.
#[derive(Drop)]
pub struct RankedQueue<R: Rank> {
    order: Order,
    rank: R,
    wants: KeyedWants,
    /// The score of each want at its place.
    ranks: LeastRanks,
}

impl<R: Rank> Model for RankedQueue<R> {
    ghost use Rattle.load_queue.specs.Queues.{Queue};
    ghost use Rattle.load_queue.specs.Entries.{IsRanked, queued_wants};

    ghost Value = { Queue };

    ghost view = { λ q. record { order = q.order; wants = queued_wants q.wants } };

    ghost invariant = { λ q. IsRanked q.order (R.order q.rank) q.wants q.ranks };
}

impl<R: Rank> RankedQueue<R> {
    /// A queue without wants, ranked by this order. It takes no memory.
    pub fn new(alloc: Global, order: Order, rank: R) -> RankedQueue<R>
        requires { R.order rank ≡ order }
        ensures order { result.order ≡ order }
        ensures empty { result.wants ≡ [] }
    {
        RankedQueue {
            order,
            rank,
            wants: KeyedWants::new(alloc),
            ranks: LeastRanks::new(alloc),
        }
    }

    /// The order by which the wants are ranked.
    pub fn order(&self) -> Order
        ensures { result ≡ self.now.order }
    {
        self.order
    }

    /// Sets the wants in place of those there were, none of them hidden. No key may stand twice,
    /// which `are_keys_distinct` tells. Want of memory changes nothing. An empty list takes none.
    pub fn set_wants(&mut self, alloc: Global, wants: WantList) -> Result<(), AllocError>
        requires { IsDistinct same_key (map (λ want. want.key) wants) }
        ensures order { self.new.order ≡ self.old.order }
        ensures ok { OnOk result (self.new.wants ≡ map fresh_want wants) }
        ensures err { OnErr result (self.new ≡ self.old) }
        ensures none { wants ≡ [] → IsOk result }
    {
        if wants.is_empty() {
            self.ranks = LeastRanks::new(alloc);
            self.wants = KeyedWants::new(alloc);
            return Ok(());
        }
        let wants = KeyedWants::from_wants(alloc, wants)?;
        let ranks = scores(alloc, &self.rank, wants.as_slice())?;
        self.ranks = LeastRanks::from_ranks(alloc, &ranks)?;
        self.wants = wants;
        Ok(())
    }

    /// The want to load next: of those that aren't hidden the first of the least rank, or None
    /// where there is none. It takes no memory, and the same time however many there are.
    pub fn best(&self) -> Option<&Want>
        ensures { option_map (λ want. want.now) result
            ≡ best self.now.order (shown_wants self.now.wants) }
    {
        let first = self.ranks.first_least()?;
        if first.rank == PASSED_OVER {
            return None;
        }
        Some(&self.wants.as_slice()[first.place].want)
    }

    /// How many wants aren't hidden. It takes no memory, and time by how many there are.
    pub fn shown_count(&self) -> usize
        ensures { result ≡ length (shown_wants self.now.wants) }
    {
        count_shown(self.wants.as_slice())
    }

    /// Takes the want of a key out, where there is one. It takes no memory, and time by the
    /// logarithm of how many there are.
    pub fn drop_want(&mut self, key: &Key)
        ensures order { self.new.order ≡ self.old.order }
        ensures wants { self.new.wants ≡ other_wants key.now self.old.wants }
    {
        self.change(key, Change::Drop);
    }

    /// Hides the want of a key, where there is one, so that `best` passes it over. It takes what
    /// `drop_want` takes.
    pub fn hide(&mut self, key: &Key)
        ensures order { self.new.order ≡ self.old.order }
        ensures wants { self.new.wants ≡ map (with_hidden true key.now) self.old.wants }
    {
        self.change(key, Change::Hide);
    }

    /// Shows the want of a key again at its place, where there is one. It takes what `drop_want`
    /// takes.
    pub fn show(&mut self, key: &Key)
        ensures order { self.new.order ≡ self.old.order }
        ensures wants { self.new.wants ≡ map (with_hidden false key.now) self.old.wants }
    {
        self.change(key, Change::Show);
    }

    /// Changes the want of a key, where there is one.
    fn change(&mut self, key: &Key, change: Change)
        ensures { self.new ≡ changed_queue change key.now self.old }
    {
        let Some(place) = self.wants.change(key, change) else {
            return;
        };
        let rank = self.wants.as_slice()[place].score(&self.rank);
        self.ranks.set(place, rank);
    }
}

/// How many of these are shown.
fn count_shown(entries: &[Entry]) -> usize
    ensures { result ≡ count_by is_shown entries.now }
{
    entries.iter().filter(|entry| entry.is_shown()).count()
}

/// The score of each want at its place.
fn scores<R: Rank>(alloc: Global, rank: &R, wants: &[Entry]) -> Result<Vec<u64>, AllocError>
    ensures scores { IfOk result (λ ranks. ranks.items ≡ map (score (R.order rank.now)) wants.now) }
    ensures within { OnOk result (AllByRecursion (IsWithin (R.order rank.now)) wants.now) }
{
    let mut scores = Vec::with_capacity(alloc, wants.len())?;
    for entry in wants {
        scores.push(entry.score(rank))?;
    }
    Ok(scores)
}
