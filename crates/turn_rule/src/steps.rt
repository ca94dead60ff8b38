//! What the calls of a turn do to its table, kind of step by kind of step. These functions take the
//! parts of a pass, since a pass keeps its own facts only between calls.

ghost use Rattle.std.specs.Prelude.{◌≡◌, ◌+◌, ◌<◌, ◌≤◌, ◌^◌, ℕ, false, [], length, None, Some};
ghost use Rattle.std.specs.Prelude.{IfOk, OnOk, IfErr};
ghost use Rattle.turn_rule.specs.Journal.{IsLawful, entries_of, named_count};
ghost use Rattle.turn_rule.specs.Known.{MayRun, Ran};
ghost use Rattle.turn_rule.specs.Seats.{known, grown_view, rested_view, missed_view};
ghost use Rattle.turn_rule.specs.Seats.{drawn_view, numbered_view};
ghost use Rattle.turn_rule.specs.Rule.{facts_of};
ghost use Rattle.turn_rule.specs.Steps.{IsTurnSeat, Learns, IsAtRest, Acted, AddedOne};

use crate::act::Act;
use crate::kept::Kept;
use crate::pass::Busy;
use crate::rule::{
    AddEntry, Grown, Home, LENGTH, LeaveTurn, NEXT, ReadNext, STATE, TURN, TakeNumber, TakeTurn,
    TurnSeat, TurnTable,
};
use std::marker::Brand;
use std::sync::Wait;
use std::sync::ledger::{Book, Ledger, Share};
use std::thread;

/// The first number that no pass gets.
pub const NUMBERS: u64 = 1 << 32;

/// Kind 3: the journal's length goes up by one.
fn count_entry<K: Kept, L: Ledger, N: Grown<K::Entry>>(
    table: &TurnTable<K, L>,
    seat: &mut TurnSeat<K, L>,
    number: u32,
    state: &K,
)
    requires table { IsTurnSeat seat.old.table_id table.now.table_id }
    requires added { AddedOne K.names (IsLawful K.legal K.agrees) seat.old.me.0 number N.log N.own }
    requires log { N.log ≡ K.journal state.now }
    ensures seat { (seat.new.table_id ≡ seat.old.table_id) × (seat.new.id ≡ seat.old.id) }
    ensures me { seat.new.me ≡ (grown_view seat.old.me.0 N.log N.own, seat.old.me.1) }
{
    // The journal fits its count, so word 1 doesn't wrap.
    let _length = state.entries();
    table.fetch_add::<AddEntry<N>>(seat, LENGTH, 1);
}

/// Where the act added an entry, counts it in word 1, in the book and in the share.
fn account<K: Kept, L: Ledger>(
    table: &TurnTable<K, L>,
    seat: &mut TurnSeat<K, L>,
    share: &mut Share<L>,
    number: u32,
    before: u64,
    state: &K,
    book: &mut Book<L>,
)
    requires table { IsTurnSeat seat.old.table_id table.now.table_id }
    requires acted { Acted K.names (IsLawful K.legal K.agrees) seat.old.me.0 number before
        book.old.total (K.journal state.now) }
    requires parts { 0 < share.old.parts }
    ensures seat { (seat.new.table_id ≡ seat.old.table_id) × (seat.new.id ≡ seat.old.id) }
    ensures me { seat.new.me
        ≡ (
          grown_view seat.old.me.0 (K.journal state.now)
              (entries_of K.names number (K.journal state.now)),
          seat.old.me.1,
        ) }
    ensures total { book.new.total ≡ named_count K.names (K.journal state.now) }
    ensures parts { share.new.parts ≡ share.old.parts }
    ensures amount { share.new.amount + length seat.old.me.0.own
        ≡ share.old.amount + length (entries_of K.names number (K.journal state.now)) }
{
    if state.entries() != before {
        count_entry::<K, L, Brand>(table, seat, number, state);
        book.add(share, 1);
    }
}

/// One try at the turn. If it is free, the act runs on the state.
pub(crate) fn try_act<K: Kept, L: Ledger, C: Act<K>>(
    table: &TurnTable<K, L>,
    seat: &mut TurnSeat<K, L>,
    share: &mut Share<L>,
    number: u32,
    call: C,
) -> Result<C::Answer, (Busy, C)>
    requires table { IsTurnSeat seat.old.table_id table.now.table_id }
    requires rests { IsAtRest seat.old.me number share.old.parts share.old.amount }
    requires asks { MayRun K.names (IsLawful K.legal K.agrees) (C.asks call)
        (known seat.old.table_id seat.old.me.0 number share.old.parts) }
    ensures seat { (seat.new.table_id ≡ seat.old.table_id) × (seat.new.id ≡ seat.old.id) }
    ensures rests { IsAtRest seat.new.me number share.new.parts share.new.amount }
    ensures parts { share.new.parts ≡ share.old.parts }
    ensures ok { IfOk result (λ answer. Ran K.names (IsLawful K.legal K.agrees) (C.gives call)
        (known seat.old.table_id seat.old.me.0 number share.old.parts)
        (known seat.new.table_id seat.new.me.0 number share.new.parts) answer) }
    ensures same { OnOk result (seat.new.me.0
        ≡ rested_view (grown_view seat.old.me.0 seat.new.me.0.seen seat.new.me.0.own)
        seat.new.me.0.seen) }
    ensures busy { IfErr result (λ back. (back.1 ≡ call)
        × (seat.new.me ≡ (missed_view seat.old.me.0, seat.old.me.1))) }
{
    // Kind 1.
    if table.compare_exchange::<TakeTurn>(seat, TURN, 0, 1) != 0 {
        return Err((Busy, call));
    }
    // Kind 2.
    let Home {
        mut state,
        mut book,
    } = table.exchange(seat, STATE, None).unwrap();
    let before = state.entries();
    let answer = call.act(&mut state, number);
    // Kind 3, if the act added an entry.
    account(table, seat, share, number, before, &state, &mut book);
    // Kind 4.
    let out = table.exchange(seat, STATE, Some(Home { state, book }));
    let None = out else { unreachable!() };
    // Kind 5.
    table.store::<LeaveTurn>(seat, TURN, 0);
    Ok(answer)
}

/// Reads the next pass number by the old seat and takes it for the new one, again and again until
/// no other split comes between, or there is none left. Answers the number last read.
pub(crate) fn draw_number<K: Kept, L: Ledger, R: Wait>(
    table: &TurnTable<K, L>,
    rt: &R,
    old: &mut TurnSeat<K, L>,
    new: &mut TurnSeat<K, L>,
) -> u64
    requires old { IsTurnSeat old.old.table_id table.now.table_id }
    requires new { IsTurnSeat new.old.table_id table.now.table_id }
    requires numberless { new.old.me.0.number ≡ None }
    ensures limit { result ≤ 2 ^ 32 }
    ensures above { (n : ℕ) → old.old.me.0.number ≡ Some n → n < result }
    ensures grows { old.old.me.0.drawn ≤ result }
    ensures old { old.new.table_id ≡ old.old.table_id }
    ensures old_me { old.new.me ≡ (drawn_view old.old.me.0 result, old.old.me.1) }
    ensures new { new.new.table_id ≡ new.old.table_id }
    ensures won { result < 2 ^ 32 → new.new.me ≡ (numbered_view new.old.me.0 result, new.old.me.1) }
    ensures none_left { result ≡ 2 ^ 32 → new.new.me ≡ new.old.me }
{
    for _ in rt.forever() {
        // Kind 6.
        let drawn = table.load::<ReadNext>(old, NEXT);
        if drawn >= NUMBERS {
            return drawn;
        }
        // Kind 8.
        if table.compare_exchange::<TakeNumber>(new, NEXT, drawn, drawn + 1) == drawn {
            return drawn;
        }
        thread::yield_now();
    }
    unreachable!()
}

/// Waits for the turn and takes the state out.
pub(crate) fn take_state<K: Kept, L: Ledger, R: Wait>(
    table: &TurnTable<K, L>,
    rt: &R,
    seat: &mut TurnSeat<K, L>,
    number: u32,
) -> Home<K, L>
    requires table { IsTurnSeat seat.old.table_id table.now.table_id }
    requires empty { seat.old.me.1 ≡ [] }
    requires number { seat.old.me.0.number ≡ Some number }
    requires here { seat.old.me.0.spent ≡ false }
    ensures { Learns (λ h. facts_of K.journal K.library K.room h.state h.book.total) K.names
        (IsLawful K.legal K.agrees) (λ h. K.sound h.state) seat.old.me.0 result }
{
    for _ in rt.forever() {
        // Kind 1.
        if table.compare_exchange::<TakeTurn>(seat, TURN, 0, 1) == 0 {
            // Kind 2.
            return table.exchange(seat, STATE, None).unwrap();
        }
        thread::yield_now();
    }
    unreachable!()
}
