//! The queue is filled with what the latest views want, where it is out of date.

ghost use Rattle.std.specs.Prelude.{◌≡◌, true, filter, length, map, OnOk};
ghost use Rattle.std.specs.List.{list_any};
ghost use Rattle.tile_types.specs.Keys.{same_key};
ghost use Rattle.engine_core.specs.Filling.{hidden_where, is_given_up};
ghost use Rattle.engine_core.specs.Mirrors.{Lives, SameJournal};

use crate::contents::Contents;
use crate::parts::Parts;
use engine_state::{ATTEMPT_LIMIT, Flight};
use load_queue::{OrderRank, RankedQueue};
use std::alloc::{AllocError, Global};
use tile_types::Key;
use view_notes::wanted_by;

/// Hides the wants of the keys that are being fetched. It takes no memory.
fn hide_flying(queue: &mut RankedQueue<OrderRank>, flying: &[Flight])
    ensures order { queue.new.order ≡ queue.old.order }
    ensures wants { queue.new.wants
        ≡ map (hidden_where (λ key. list_any (λ f. same_key f.key key) flying.now)) queue.old.wants }
{
    for flight in flying {
        queue.hide(&flight.key);
    }
}

/// Hides the wants of these keys. It takes no memory.
fn hide_all(queue: &mut RankedQueue<OrderRank>, keys: &[Key])
    ensures order { queue.new.order ≡ queue.old.order }
    ensures wants { queue.new.wants
        ≡ map (hidden_where (λ key. list_any (λ k. same_key k key) keys.now)) queue.old.wants }
{
    for key in keys {
        queue.hide(key);
    }
}

/// How often a key was tried in vain.
fn times_tried(attempts: &[Key], key: &Key) -> usize
    ensures { result ≡ length (filter (same_key key.now) attempts.now) }
{
    attempts.iter().filter(|tried| *key == **tried).count()
}

/// Hides the wants of the keys that were tried in vain too often. It takes no memory.
fn hide_given_up(queue: &mut RankedQueue<OrderRank>, attempts: &[Key])
    ensures order { queue.new.order ≡ queue.old.order }
    ensures wants { queue.new.wants
        ≡ map (hidden_where (is_given_up attempts.now)) queue.old.wants }
{
    for key in attempts {
        if times_tried(attempts, key) >= ATTEMPT_LIMIT {
            queue.hide(key);
        }
    }
}

impl Parts {
    /// Puts what the latest views want into the queue, and hides there what may not be taken, where
    /// that isn't done.
    pub(crate) fn fill_queue(&mut self, alloc: Global) -> Result<(), AllocError>
        requires { Lives self.old }
        ensures lives { Lives self.new }
        ensures same { SameJournal self.old self.new }
        ensures filled { OnOk result (self.new.filled ≡ true) }
    {
        if self.filled {
            return Ok(());
        }
        self.note(alloc)?;
        let contents = Contents {
            cache: &self.cache,
            absent: &self.absent,
        };
        let wants = wanted_by(alloc, &self.notes, &contents)?;
        engine_state::laws::wants_are_to_load();
        self.queue.set_wants(alloc, wants)?;
        hide_flying(&mut self.queue, self.flying.as_slice());
        hide_all(&mut self.queue, self.squeezed.as_slice());
        hide_given_up(&mut self.queue, self.attempts.as_slice());
        self.filled = true;
        Ok(())
    }
}
