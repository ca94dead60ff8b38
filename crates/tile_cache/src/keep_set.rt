//! The addresses of contents that are to be kept.

ghost use Rattle.std.specs.Prelude.{◌≡◌, ◌≢◌, ◌↔◌, ◌++◌, [], ◌∷◌, true, false, not, length};
ghost use Rattle.std.specs.Prelude.{Ok, IfOk, OnErr, IsTrue};
ghost use Rattle.std.specs.List.{list_any};
ghost use Rattle.tile_cache.specs.Residents.{same_text};

use crate::keeping::Keeping;
use indexmap::IndexSet;
use std::alloc::{AllocError, Global};
use std::marker::Model;
use tile_types::Text;

/// Addresses that are asked for one by one, as those of the contents that the views keep. Contracts
/// see them as the list of them in the order in which they first came, each once.
#[derive(Drop)]
pub struct KeepSet {
    addresses: IndexSet<Text>,
}

impl Model for KeepSet {
    ghost use Rattle.std.specs.Prelude.{List, ℕ};

    ghost Value = { List (List ℕ) };

    ghost view = { λ set. set.addresses.keys };
}

impl KeepSet {
    /// No addresses. It takes no memory.
    pub fn new(alloc: Global) -> KeepSet
        ensures { result ≡ [] }
    {
        KeepSet {
            addresses: IndexSet::new(alloc),
        }
    }

    /// Adds an address, and says whether it is a new one. One that is there already takes no
    /// memory.
    pub fn insert(&mut self, address: Text) -> Result<bool, AllocError>
        ensures value { IfOk result (λ added. added ≡ not (list_any (same_text address) self.old)) }
        ensures added { result ≡ Ok true → self.new ≡ self.old ++ address ∷ [] }
        ensures unchanged { result ≢ Ok true → self.new ≡ self.old }
        ensures refused { OnErr result (list_any (same_text address) self.old ≡ false) }
    {
        Ok(self.addresses.insert(address)?)
    }

    /// Whether the address is among them.
    pub fn contains(&self, address: &Text) -> bool
        ensures { result ≡ list_any (same_text address.now) self.now }
    {
        self.addresses.contains(address)
    }

    /// How many addresses there are.
    pub fn len(&self) -> usize
        ensures { result ≡ length self.now }
    {
        self.addresses.len()
    }

    /// Whether there are none.
    pub fn is_empty(&self) -> bool
        ensures { IsTrue result ↔ (self.now ≡ []) }
    {
        self.addresses.is_empty()
    }

    /// Takes all addresses out. Their room stays for others.
    pub fn clear(&mut self)
        ensures { self.new ≡ [] }
    {
        self.addresses.clear();
    }
}

impl Keeping for KeepSet {
    ghost keeps = { λ set address. list_any (same_text address) set };

    fn keeps(&self, address: &Text) -> bool {
        self.contains(address)
    }
}
