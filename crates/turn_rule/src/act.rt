//! The trait of acts.

ghost use Rattle.std.specs.Prelude.{◌≡◌, ◌++◌, ℕ, List, Option};
ghost use Rattle.turn_rule.specs.Journal.{IsBy, IsLawful, list_of};

use crate::kept::Kept;

/// What a pass does while it holds the turn: it adds at most one entry, which names the pass, and
/// answers. An act has two meanings, what it asks and what it gives.
pub trait Act<K: Kept> {
    /// What the act answers.
    type Answer;

    /// What the act asks of the journal before it, the library and the pass number.
    ghost asks: { Self → List K.Entry → Option K.Library → ℕ → Type 0 };

    /// How the answer, and the entry that was added or none, stand to the journal before the act,
    /// the library, the room and the pass number.
    ghost gives: { Self → List K.Entry → Option K.Library → ℕ → ℕ → Option K.Entry
        → Self.Answer → Type 0 };

    /// Runs on the state for the pass of this number. It leaves the journal legal and in agreement
    /// with the library, the library and the room as they were, and the state sound.
    fn act(self, state: &mut K, pass: u32) -> Self::Answer
        requires lawful { IsLawful K.legal K.agrees (K.library state.old) (K.journal state.old) }
        requires sound { K.sound state.old }
        requires asks { asks self (K.journal state.old) (K.library state.old) pass }
        ensures entry { (e : Option K.Entry)
            × (K.journal state.new ≡ K.journal state.old ++ list_of e)
            × IsBy K.names pass e
            × gives self (K.journal state.old) (K.library state.old) (K.room state.old) pass e
            result }
        ensures lawful { IsLawful K.legal K.agrees (K.library state.old) (K.journal state.new) }
        ensures library { K.library state.new ≡ K.library state.old }
        ensures room { K.room state.new ≡ K.room state.old }
        ensures sound { K.sound state.new };
}
