//! How a content becomes resident, and what goes for it.

ghost use Rattle.std.specs.Prelude.{◌≡◌, ◌<◌, ◌≤◌, ◌+◌, ◌-◌, ◌^◌, [], ◌∷◌, ◌++◌, true, false};
ghost use Rattle.std.specs.Prelude.{length, not, IfOk, IfErr, OnOk, OnErr, filter, nat_lt, ◌||◌};
ghost use Rattle.std.specs.List.{list_any};
ghost use Rattle.tile_cache.specs.Kept.{resident, residents_in, unpinned};
ghost use Rattle.tile_cache.specs.Pins.{SamePins};
ghost use Rattle.tile_cache.specs.Residents.{bytes_in, has_address, same_text, without};
ghost use Rattle.tile_cache.specs.Room.{bytes_held, evicted_by, is_held, MakesRoom};
ghost use Rattle.tile_cache.specs.Room.{RefusesAdmission};

use crate::cache::Cache;
use crate::entry::Entry;
use crate::error::AdmitError;
use crate::keeping::Keeping;
use content_digest::Content;
use lru::LruCache;
use std::alloc::{AllocError, Global};
use tile_types::{Text, TextList};

/// The addresses of what was evicted, in the order of eviction.
pub type Evicted = TextList;

/// What goes for a content, and how many bytes are free then.
#[derive(Drop)]
struct Room {
    free: u64,
    evicted: TextList,
    /// Whether there was memory for each of the addresses.
    is_whole: bool,
}

impl Cache {
    /// Makes a content resident, as the most recently used, and evicts others where it doesn't fit
    /// beside them: from the least recently used on, but for those that are pinned or that `keep`
    /// keeps, and no more than it takes.
    ///
    /// Errors: `Squeezed` where it doesn't fit beside those, or `OutOfMemory`.
    pub fn admit<K: Keeping>(
        &mut self,
        alloc: Global,
        address: &Text,
        content: Content,
        keep: &K,
    ) -> Result<Evicted, AdmitError>
        requires { has_address self.old.residents address.now ≡ false }
        ensures evicted { let held = is_held self.old.pins (K.keeps keep.now) in
            IfOk result (λ evicted. evicted
            ≡ evicted_by held self.old.budget self.old.residents (length content)) }
        ensures residents { IfOk result (λ evicted. self.new.residents
            ≡ resident address.now content ∷ without evicted self.old.residents) }
        ensures within { bytes_in self.new.residents ≤ self.new.budget }
        ensures pins { SamePins self.old.pins self.new.pins }
        ensures budget { self.new.budget ≡ self.old.budget }

        // Squeezed exactly where the bytes that are held and its own pass the budget.
        ensures fits { let held = is_held self.old.pins (K.keeps keep.now) in
            OnOk result (bytes_held held self.old.residents + length content ≤ self.old.budget) }
        ensures refused { let held = is_held self.old.pins (K.keeps keep.now) in
            IfErr result (RefusesAdmission (bytes_held held self.old.residents)
            (length content) self.old.budget) }
        ensures unchanged { OnErr result (self.new ≡ self.old) }
    {
        // No address stands twice.
        let _ = self.entries.len();
        let length = content.bytes().len() as u64;
        let room = self.room_for(alloc, length, keep);
        if room.free < length {
            return Err(AdmitError::Squeezed {
                held: self.budget - room.free,
                length,
            });
        }
        if !room.is_whole {
            return Err(AdmitError::OutOfMemory);
        }
        put_first(&mut self.entries, alloc, address, content)?;
        remove_all(&mut self.entries, room.evicted.as_slice());
        self.free = room.free - length;
        Ok(room.evicted)
    }

    /// What goes for so many bytes, and how many are free then.
    fn room_for<K: Keeping>(&self, alloc: Global, length: u64, keep: &K) -> Room
        ensures { MakesRoom (is_held self.now.pins (K.keeps keep.now)) self.now.budget self.now.residents
            length result.free result.evicted result.is_whole }
    {
        // No address stands twice.
        let _ = self.entries.len();
        let mut room = Room {
            free: self.free,
            evicted: TextList::new(alloc),
            is_whole: true,
        };
        for (address, entry) in self.entries.iter().rev() {
            if length <= room.free {
                break;
            }
            if !stays(address, entry, keep) {
                room.evict(alloc, address, entry);
            }
        }
        room
    }
}

impl Room {
    /// One more goes.
    fn evict(&mut self, alloc: Global, address: &Text, entry: &Entry)
        requires { self.old.free + length entry.now.content < 2 ^ 64 }
        ensures free { self.new.free ≡ self.old.free + length entry.now.content }
        ensures evicted { self.new.is_whole ≡ true → (self.old.is_whole ≡ true)
            × (self.new.evicted ≡ self.old.evicted ++ address.now ∷ []) }
    {
        self.free += entry.content.bytes().len() as u64;
        self.is_whole = self.is_whole && push_copy(alloc, address, &mut self.evicted).is_ok();
    }
}

/// Whether what is kept at this address is pinned, or to be kept.
fn stays<K: Keeping>(address: &Text, entry: &Entry, keep: &K) -> bool
    ensures { result ≡ (nat_lt 0 entry.now.pins || K.keeps keep.now address.now) }
{
    entry.pins > 0 || keep.keeps(address)
}

/// Adds a copy of a text at the end.
fn push_copy(alloc: Global, text: &Text, list: &mut TextList) -> Result<(), AllocError>
    ensures ok { OnOk result (list.new ≡ list.old ++ text.now ∷ []) }
{
    list.push(text.copy(alloc)?)
}

/// Keeps a content that isn't pinned, as the most recently used.
fn put_first(
    entries: &mut LruCache<Text, Entry>,
    alloc: Global,
    address: &Text,
    content: Content,
) -> Result<(), AllocError>
    requires new { has_address (residents_in entries.old.entries) address.now ≡ false }
    requires unbounded { entries.old.cap ≡ 2 ^ 64 - 1 }
    ensures ok { OnOk result (entries.new.entries
        ≡ (address.now, unpinned content) ∷ entries.old.entries) }
    ensures err { OnErr result (entries.new ≡ entries.old) }
    ensures cap { entries.new.cap ≡ entries.old.cap }
{
    // There are fewer than may be, so that none is pushed out.
    let _ = entries.len();
    entries.put(address.copy(alloc)?, Entry { content, pins: 0 })?;
    Ok(())
}

/// Takes out what is kept at these addresses.
fn remove_all(entries: &mut LruCache<Text, Entry>, addresses: &[Text])
    ensures entries { entries.new.entries
        ≡ filter (λ e. not (list_any (same_text e.0) addresses.now)) entries.old.entries }
    ensures cap { entries.new.cap ≡ entries.old.cap }
{
    // No address stands twice.
    let _ = entries.len();
    for address in addresses {
        entries.pop(address);
    }
}
