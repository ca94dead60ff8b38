//! The resident contents, their pins and their budget.

ghost use Rattle.std.specs.Prelude.{◌≡◌, ◌↔◌, ◌<◌, ◌≤◌, ◌+◌, [], ◌∷◌, true, false, Ok, None};
ghost use Rattle.std.specs.Prelude.{IsTrue, IfOk, IsOk, Some};
ghost use Rattle.tile_cache.specs.Pins.{times, SamePins};
ghost use Rattle.tile_cache.specs.Residents.{bytes_in, content_at, has_address, moved_up};
ghost use Rattle.tile_cache.specs.declared.cache.TheConstants.{PIN_LIMIT};

use crate::entry::Entry;
use content_digest::Content;
use lru::LruCache;
use std::alloc::{AllocError, Global};
use std::marker::Model;
use tile_types::Text;

/// How often an address may be pinned.
pub const PIN_LIMIT: u128 = 1 << 100;

/// The resident contents by their addresses, in order of their use, within a budget of bytes.
/// Contracts see the residents, the most recently used first, an address for each pin, and the
/// budget.
#[derive(Drop)]
pub struct Cache {
    pub(crate) entries: LruCache<Text, Entry>,
    pub(crate) budget: u64,
    /// How many bytes of the budget no resident takes.
    pub(crate) free: u64,
}

impl Model for Cache {
    ghost use Rattle.tile_cache.specs.Kept.{CacheState, IsKept, pins_in, residents_in};

    ghost Value = { CacheState };

    ghost view = { λ c. record {
      residents = residents_in c.entries.entries;
      pins = pins_in c.entries.entries;
      budget = c.budget;
    } };

    ghost invariant = { λ c. IsKept c.entries c.budget c.free };
}

impl Cache {
    /// A cache without residents, whose contents may have so many bytes together.
    pub fn new(alloc: Global, budget: u64) -> Result<Cache, AllocError>
        ensures residents { IfOk result (λ cache. cache.residents ≡ []) }
        ensures pins { IfOk result (λ cache. cache.pins ≡ []) }
        ensures budget { IfOk result (λ cache. cache.budget ≡ budget) }
    {
        Ok(Cache {
            entries: LruCache::unbounded(alloc)?,
            budget,
            free: budget,
        })
    }

    /// Whether a content at this address is resident. It takes no memory.
    pub fn holds(&self, address: &Text) -> bool
        ensures { result ≡ has_address self.now.residents address.now }
    {
        self.entries.contains(address)
    }

    /// How many bytes the residents have together. It takes no memory.
    pub fn resident_bytes(&self) -> u64
        ensures bytes { result ≡ bytes_in self.now.residents }
        ensures within { result ≤ self.now.budget }
    {
        self.budget - self.free
    }

    /// Whether so many bytes more are within the budget although nothing goes. It takes no memory.
    pub fn has_room(&self, length: u64) -> bool
        ensures { IsTrue result ↔ (bytes_in self.now.residents + length ≤ self.now.budget) }
    {
        length <= self.free
    }

    /// How often an address is pinned, which only residents are. It takes no memory.
    pub fn pin_count(&self, address: &Text) -> u128
        ensures count { result ≡ times address.now self.now.pins }
        ensures resident { 0 < result → has_address self.now.residents address.now ≡ true }
    {
        // No address stands twice.
        let _ = self.entries.len();
        match self.entries.peek(address) {
            Some(entry) => entry.pins,
            None => 0,
        }
    }

    /// The content at an address for one more owner, whose bytes aren't copied.
    pub fn share(&self, address: &Text) -> Result<Option<Content>, AllocError>
        ensures content { IfOk result (λ found. found ≡ content_at self.now.residents address.now) }
        ensures none { (result ≡ Ok None) ↔ (has_address self.now.residents address.now ≡ false) }
        ensures empty { content_at self.now.residents address.now ≡ Some [] → IsOk result }
    {
        match self.entries.peek(address) {
            Some(entry) => Ok(Some(entry.content.share()?)),
            None => Ok(None),
        }
    }

    /// Notes that the content at this address is used: it becomes the most recently used. Where
    /// none is resident there it does nothing. It takes no memory.
    pub fn touch(&mut self, address: &Text)
        ensures residents { self.new.residents ≡ moved_up self.old.residents address.now }
        ensures pins { SamePins self.old.pins self.new.pins }
        ensures budget { self.new.budget ≡ self.old.budget }
    {
        // No address stands twice.
        let _ = self.entries.len();
        self.entries.promote(address);
    }

    /// Pins the content at this address once more: it isn't evicted while it is pinned. It takes no
    /// memory.
    pub fn pin(&mut self, address: &Text)
        requires resident { IsTrue (has_address self.old.residents address.now) }
        requires limit { times address.now self.old.pins < PIN_LIMIT }
        ensures residents { self.new.residents ≡ self.old.residents }
        ensures pins { SamePins (address.now ∷ self.old.pins) self.new.pins }
        ensures budget { self.new.budget ≡ self.old.budget }
    {
        if let Some(entry) = self.entries.peek_mut(address) {
            entry.pins += 1;
        }
    }

    /// Takes one pin of this address off. It takes no memory.
    pub fn unpin(&mut self, address: &Text)
        requires pinned { 0 < times address.now self.old.pins }
        ensures residents { self.new.residents ≡ self.old.residents }
        ensures pins { SamePins self.old.pins (address.now ∷ self.new.pins) }
        ensures budget { self.new.budget ≡ self.old.budget }
    {
        // No address stands twice.
        let _ = self.entries.len();
        if let Some(entry) = self.entries.peek_mut(address) {
            entry.pins -= 1;
        }
    }
}
