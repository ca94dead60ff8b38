//! The trait of a state behind a turn.

ghost use Rattle.std.specs.Prelude.{◌≡◌, ℕ, length, List, Option};

/// A state with a journal, which passes take in turn. Its ghost members are meanings: the turn's
/// contracts speak of a state only through them.
pub trait Kept: Drop {
    /// An entry of the journal.
    type Entry;

    /// What the state may be told that its journals agree with.
    type Library;

    /// The journal, from its first entry on.
    ghost journal: { Self → List Self.Entry };

    /// The number of the pass that an entry names, or none.
    ghost names: { Self.Entry → Option ℕ };

    /// Which journals are legal.
    ghost legal: { List Self.Entry → Type 0 };

    /// The library, where it is told.
    ghost library: { Self → Option Self.Library };

    /// Which journals agree with a library.
    ghost agrees: { Self.Library → List Self.Entry → Type 0 };

    /// A number that no act changes, such as how much the state has room for.
    ghost room: { Self → ℕ };

    /// What else holds of the state whenever the turn is free, and is kept by each act.
    ghost sound: { Self → Type 0 };

    /// The length of the journal. It takes no memory.
    fn entries(&self) -> u64
        ensures { result ≡ length (journal self.now) };
}
