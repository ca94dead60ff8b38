//! Wants that are found by their keys.

ghost use Rattle.std.specs.Prelude.{◌≡◌, ℕ, [], IfOk, Some, map, position, slice_index_or};
ghost use Rattle.std.specs.Prelude.{slice_set};
ghost use Rattle.std.specs.List.{IsDistinct};
ghost use Rattle.tile_types.specs.Keys.{same_key};
ghost use Rattle.load_queue.specs.declared.entry.Entry.{Entry};
ghost use Rattle.load_queue.specs.Entries.{changed_entries, has_key, shown_entry};

use crate::entry::{Change, Entry, State};
use indexmap::IndexSet;
use std::alloc::{AllocError, Global};
use std::marker::Model;
use tile_types::{Key, WantList};

/// The wants of a list in its order, with what became of each. Contracts see the list of them.
#[derive(Drop)]
pub struct KeyedWants {
    entries: Vec<Entry>,
    /// The key of each, at its place.
    places: IndexSet<Key>,
}

impl Model for KeyedWants {
    ghost use Rattle.std.specs.Prelude.{List};
    ghost use Rattle.load_queue.specs.declared.entry.Entry.{Entry};
    ghost use Rattle.load_queue.specs.Entries.{AreKeyed};

    ghost Value = { List Entry };

    ghost view = { λ w. w.entries.items };

    ghost invariant = { λ w. AreKeyed w.entries.items w.places.keys };
}

impl KeyedWants {
    /// No wants.
    pub fn new(alloc: Global) -> KeyedWants
        ensures { result ≡ [] }
    {
        KeyedWants {
            entries: Vec::new(alloc),
            places: IndexSet::new(alloc),
        }
    }

    /// These wants, each shown.
    pub fn from_wants(alloc: Global, wants: WantList) -> Result<KeyedWants, AllocError>
        requires { IsDistinct same_key (map (λ want. want.key) wants) }
        ensures { IfOk result (λ entries. entries ≡ map shown_entry wants) }
    {
        let places = keys_of(alloc, &wants)?;
        let entries = wants
            .into_vec()
            .into_iter()
            .map(|want| Entry {
                want,
                state: State::Shown,
            })
            .collect(alloc)?;
        Ok(KeyedWants { entries, places })
    }

    /// The wants in order.
    pub fn as_slice(&self) -> &[Entry]
        ensures { result.now ≡ self.now }
    {
        self.entries.as_slice()
    }

    /// Changes the want of a key, where there is one, and answers its place.
    pub fn change(&mut self, key: &Key, change: Change) -> Option<usize>
        ensures place { result ≡ position (has_key key.now) self.old }
        ensures changed { self.new ≡ changed_entries change key.now self.old }

        // Only the place that is answered changes.
        ensures only { (place : ℕ) (e : Entry) → result ≡ Some place
            → self.new ≡ slice_set self.old place (slice_index_or self.new place e) }
    {
        let place = self.places.get_index_of(key)?;
        let state = self.entries[place].state;
        self.entries[place].state = state.after(change);
        Some(place)
    }
}

/// The keys of wants, each at its place.
fn keys_of(alloc: Global, wants: &WantList) -> Result<IndexSet<Key>, AllocError>
    requires { IsDistinct same_key (map (λ want. want.key) wants.now) }
    ensures { IfOk result (λ keys. keys.keys ≡ map (λ want. want.key) wants.now) }
{
    let mut keys = IndexSet::with_capacity(alloc, wants.len())?;
    for want in wants.as_slice() {
        keys.insert(want.key.copy(alloc)?)?;
    }
    Ok(keys)
}
