//! The type of a pass, and the two refusals of a turn: Busy and SplitError.

ghost use Rattle.std.specs.Prelude.{◌≡◌};

use crate::kept::Kept;
use crate::rule::TurnSeat;
use std::marker::Model;
use std::sync::ledger::{Ledger, Share};

/// The turn was taken when `try_turn` looked.
#[derive(Drop)]
pub struct Busy;

/// Why `split` gave no pass. It takes no memory, so it has no other cause.
#[derive(Drop)]
pub enum SplitError {
    /// All pass numbers are given away: the next one was found to be `drawn`, which is 2^32.
    NoNumber { drawn: u64 },
}

/// The right to take turns: who has it acts under its number. Contracts see it as a `Known`.
#[derive(Drop)]
pub struct Pass<K: Kept, L: Ledger> {
    pub(crate) seat: TurnSeat<K, L>,
    pub(crate) share: Share<L>,
    pub(crate) number: u32,
}

impl<K: Kept, L: Ledger> Model for Pass<K, L> {
    ghost use Rattle.turn_rule.specs.Known.{Known};

    ghost Value = { Known K.Entry K.Library };

    ghost use Rattle.turn_rule.specs.Seats.{known};
    ghost use Rattle.turn_rule.specs.Steps.{IsAtRest};

    ghost view = { λ p. known p.seat.table_id p.seat.me.0 p.number p.share.parts };

    ghost invariant = { λ p. IsAtRest p.seat.me p.number p.share.parts p.share.amount };
}

impl<K: Kept, L: Ledger> Pass<K, L> {
    /// The pass's number, which the entries that it makes name.
    pub fn number(&self) -> u32
        ensures { result ≡ self.now.number }
    {
        self.number
    }
}
