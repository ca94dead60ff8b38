//! Wants, each key once.

ghost use Rattle.std.specs.Prelude.{◌≡◌, [], IfOk, OnOk};
ghost use Rattle.std.specs.Option.{option_map_or};
ghost use Rattle.indexmap.specs.IndexMap.{get};
ghost use Rattle.tile_types.specs.Keys.{same_key};
ghost use Rattle.cut_core.specs.WantMap.{wants_in};
ghost use Rattle.cut_core.specs.Wants.{joined, want_with, with_want};

use indexmap::IndexMap;
use std::alloc::{AllocError, Global};
use tile_types::{Key, TileFacts, Want, WantList};

/// Wants by their keys, in the order in which each key came first.
#[derive(Drop)]
pub struct WantMap {
    facts: IndexMap<Key, TileFacts>,
}

/// The least distance and the greatest error of both.
fn joined(a: TileFacts, b: TileFacts) -> TileFacts
    ensures { result ≡ joined a b }
{
    TileFacts {
        distance: a.distance.min(b.distance),
        error: a.error.max(b.error),
    }
}

impl WantMap {
    /// No wants.
    pub fn new(alloc: Global) -> WantMap
        ensures { wants_in result ≡ [] }
    {
        WantMap {
            facts: IndexMap::new(alloc),
        }
    }

    /// These facts joined with those of an earlier want of the key.
    fn facts_with(&self, key: &Key, facts: TileFacts) -> TileFacts
        ensures { let earlier = get same_key self.now.facts key.now in
            result ≡ option_map_or (λ ranks. joined ranks facts) earlier facts }
    {
        match self.facts.get(key) {
            Some(earlier) => joined(*earlier, facts),
            None => facts,
        }
    }

    /// Adds a want, which joins an earlier one of its key.
    pub fn put(&mut self, key: Key, facts: TileFacts) -> Result<(), AllocError>
        ensures { OnOk result (wants_in self.new
            ≡ with_want (wants_in self.old) (want_with facts key)) }
    {
        let facts = self.facts_with(&key, facts);
        self.facts.insert(key, facts)?;
        Ok(())
    }

    /// The wants as a list.
    pub fn into_list(self, alloc: Global) -> Result<WantList, AllocError>
        ensures { IfOk result (λ wants. wants ≡ wants_in self) }
    {
        let WantMap { facts } = self;
        facts
            .into_iter()
            .map(|(key, facts)| Want { key, facts })
            .collect(alloc)
    }
}
