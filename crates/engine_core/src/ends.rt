//! A fetch ends without bytes.

ghost use Rattle.std.specs.Prelude.{◌≡◌, ◌<◌, ◌≤◌, ◌+◌, ◌++◌, ◌∷◌, [], false, IsTrue};
ghost use Rattle.std.specs.List.{list_any};
ghost use Rattle.indexmap.specs.IndexSet.{spare};
ghost use Rattle.tile_cache.specs.Residents.{same_text};
ghost use Rattle.doc_store.specs.Docs.{is_content};
ghost use Rattle.engine_state.specs.Allowed.{last_count, may_be_gone};
ghost use Rattle.engine_state.specs.Loading.{flies};
ghost use Rattle.engine_core.specs.Mirrors.{Lives, state_of};

use crate::flights::end_flight;
use crate::parts::Parts;
use engine_state::{Entry, Gone};
use indexmap::IndexSet;
use tile_types::{Key, Kind, Text};

/// Adds an address that isn't among these, for which there is room. It takes no memory.
fn put_new(addresses: &mut IndexSet<Text>, address: Text)
    requires room { 0 < spare addresses.old }
    requires new { list_any (same_text address) addresses.old.keys ≡ false }
    ensures keys { addresses.new.keys ≡ addresses.old.keys ++ address ∷ [] }
    ensures room { spare addresses.old ≤ spare addresses.new + 1 }
{
    match addresses.insert(address) {
        Ok(_) => {}
        Err(_) => unreachable!(),
    }
}

impl Parts {
    /// Notes that nothing comes of a key. It takes no memory.
    pub(crate) fn add_absent(&mut self, pass: u32, key: Key, why: Gone)
        requires lives { Lives self.old }
        requires flies { IsTrue (flies (state_of self.old) pass key) }
        requires gone { IsTrue (may_be_gone (state_of self.old) key why) }
        ensures lives { Lives self.new }
        ensures journal { self.new.entries.items
            ≡ self.old.entries.items ++ Entry.Absent pass key why ∷ [] }
        ensures room { self.new.room ≡ self.old.room }
    {
        match key.kind {
            Kind::Content => self.add_absent_content(pass, key, why),
            Kind::Tileset | Kind::Subtree { .. } => self.add_absent_document(pass, key, why),
        }
    }

    /// The same, of a content.
    fn add_absent_content(&mut self, pass: u32, key: Key, why: Gone)
        requires lives { Lives self.old }
        requires flies { IsTrue (flies (state_of self.old) pass key) }
        requires gone { IsTrue (may_be_gone (state_of self.old) key why) }
        requires content { IsTrue (is_content key) }
        ensures lives { Lives self.new }
        ensures journal { self.new.entries.items
            ≡ self.old.entries.items ++ Entry.Absent pass key why ∷ [] }
        ensures room { self.new.room ≡ self.old.room }
    {
        engine_state::laws::what_flies_is_to_load();
        engine_state::laws::what_is_to_load_is_missing();
        let flown = end_flight(&mut self.flying, pass, &key);
        put_new(&mut self.absent, flown.address);
        self.noted = false;
        self.filled = false;
        self.entries.push_reserved(Entry::Absent { pass, key, why });
    }

    /// The same, of a document: the tree changes.
    fn add_absent_document(&mut self, pass: u32, key: Key, why: Gone)
        requires lives { Lives self.old }
        requires flies { IsTrue (flies (state_of self.old) pass key) }
        requires gone { IsTrue (may_be_gone (state_of self.old) key why) }
        requires document { is_content key ≡ false }
        ensures lives { Lives self.new }
        ensures journal { self.new.entries.items
            ≡ self.old.entries.items ++ Entry.Absent pass key why ∷ [] }
        ensures room { self.new.room ≡ self.old.room }
    {
        engine_state::laws::what_flies_is_to_load();
        engine_state::laws::what_is_to_load_is_missing();
        let flown = end_flight(&mut self.flying, pass, &key);
        self.arena.mark_absent(flown);
        self.noted = false;
        self.filled = false;
        self.entries.push_reserved(Entry::Absent { pass, key, why });
    }

    /// Notes that the source failed, and has counted so many faults. It takes no memory.
    pub(crate) fn add_failed(&mut self, pass: u32, key: Key, count: u64)
        requires lives { Lives self.old }
        requires flies { IsTrue (flies (state_of self.old) pass key) }
        requires risen { last_count (state_of self.old).faults pass < count }
        ensures lives { Lives self.new }
        ensures journal { self.new.entries.items
            ≡ self.old.entries.items ++ Entry.Failed pass key count ∷ [] }
        ensures room { self.new.room ≡ self.old.room }
    {
        let flown = end_flight(&mut self.flying, pass, &key);
        self.attempts.push_reserved(flown);
        self.filled = false;
        self.entries
            .push_reserved(Entry::Failed { pass, key, count });
    }

    /// Notes that there was no memory for what came. It takes no memory.
    pub(crate) fn add_starved(&mut self, pass: u32, key: Key)
        requires lives { Lives self.old }
        requires flies { IsTrue (flies (state_of self.old) pass key) }
        ensures lives { Lives self.new }
        ensures journal { self.new.entries.items
            ≡ self.old.entries.items ++ Entry.Starved pass key ∷ [] }
        ensures room { self.new.room ≡ self.old.room }
    {
        let flown = end_flight(&mut self.flying, pass, &key);
        self.attempts.push_reserved(flown);
        self.filled = false;
        self.entries.push_reserved(Entry::Starved { pass, key });
    }
}
