//! What is kept of the contents that were fetched.

ghost use Rattle.std.specs.Prelude.{◌≡◌, ◌++◌, ◌∷◌, [], false, option_map, IfSome, OnOk};
ghost use Rattle.stream_cli.specs.Kept.{facts_at, keeps};

use content_digest::ContentFacts;
use indexmap::IndexMap;
use std::alloc::{AllocError, Global};
use std::marker::Model;
use tile_types::Text;

/// The length and the digest of each content that was asked for, by its address, or none where the
/// content is absent. Contracts see it as its entries, in the order in which they came.
#[derive(Drop)]
pub struct ContentMap {
    facts: IndexMap<Text, Option<ContentFacts>>,
}

impl Model for ContentMap {
    ghost use Rattle.stream_cli.specs.Kept.{Kept};

    ghost Value = { Kept };

    ghost view = { λ contents. contents.facts.entries };
}

impl ContentMap {
    /// No contents.
    pub fn new(alloc: Global) -> ContentMap
        ensures { result ≡ [] }
    {
        ContentMap {
            facts: IndexMap::new(alloc),
        }
    }

    /// Whether the content at an address was asked for.
    pub fn keeps(&self, address: &Text) -> bool
        ensures { result ≡ keeps self.now address.now }
    {
        self.facts.contains_key(address)
    }

    /// The length and the digest of the content at an address; None where it is absent.
    pub fn facts_at(&self, address: &Text) -> Option<&ContentFacts>
        ensures { option_map (λ facts. facts.now) result ≡ facts_at self.now address.now }
    {
        match self.facts.get(address) {
            Some(Some(facts)) => Some(facts),
            _ => None,
        }
    }

    /// What is kept of the content at an address, where the entry of this number is its own.
    fn entry_at(&self, number: usize, address: &Text) -> Option<Option<&ContentFacts>>
        ensures { IfSome result (λ kept.
            option_map (λ facts. facts.now) kept ≡ facts_at self.now address.now) }
    {
        match self.facts.get_index(number) {
            Some((key, facts)) if key == address => Some(facts.as_ref()),
            _ => None,
        }
    }

    /// The same as `facts_at`, without a look-up where contents are asked for in the order in which
    /// they came: the entry that was guessed last and the next one are tried before.
    pub fn facts_near(&self, guess: &mut usize, address: &Text) -> Option<&ContentFacts>
        ensures { option_map (λ facts. facts.now) result ≡ facts_at self.now address.now }
    {
        if let Some(facts) = self.entry_at(*guess, address) {
            return facts;
        }
        let next = guess.saturating_add(1);
        if let Some(facts) = self.entry_at(next, address) {
            *guess = next;
            return facts;
        }
        self.facts_at(address)
    }

    /// Adds what is kept of the content at an address that wasn't asked for before.
    pub fn add(&mut self, address: Text, facts: Option<ContentFacts>) -> Result<(), AllocError>
        requires { keeps self.old address ≡ false }
        ensures { OnOk result (self.new ≡ self.old ++ (address, facts) ∷ []) }
    {
        self.facts.insert(address, facts)?;
        Ok(())
    }
}
