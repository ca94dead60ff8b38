//! Which contents the noted nodes name.

ghost use Rattle.std.specs.Prelude.{◌≡◌, ◌++◌, ◌∷◌, ◌<◌, [], ℕ, List, IfOk, IsTrue, OnErr, OnOk, Some};
ghost use Rattle.std.specs.Prelude.{bytes_eq, is_some, length, position, slice_get, slice_index_or};
ghost use Rattle.std.specs.List.{list_any};
ghost use Rattle.expanded_tree.specs.Tree.{addresses_of};
ghost use Rattle.view_notes.specs.Names.{AddsNumbers, IsNumber, address_at};

use crate::number::number_of;
use crate::span::Span;
use expanded_tree::{Node, TileTree};
use indexmap::IndexSet;
use std::alloc::{AllocError, Global};
use std::marker::Model;
use tile_types::Text;

/// The addresses that nodes name, each once, and for each node the numbers of those that it names,
/// which contracts see.
#[derive(Drop)]
pub struct NameList {
    addresses: IndexSet<Text>,
    /// The numbers that the nodes name, node by node.
    numbers: Vec<u32>,
    /// Where those of each node stand.
    spans: Vec<Span>,
}

impl Model for NameList {
    ghost use Rattle.std.specs.Prelude.{map};
    ghost use Rattle.view_notes.specs.Names.{AreNames, Named, numbers_in};

    ghost Value = { Named };

    ghost view = { λ names. record {
      addresses = names.addresses.keys;
      numbers = map (numbers_in names.numbers.items) names.spans.items;
    } };

    ghost invariant = { λ names. AreNames names.addresses.keys names.numbers.items
        names.spans.items };
}

/// The number of an address, which is added where it is new.
fn number_for(
    alloc: Global,
    addresses: &mut IndexSet<Text>,
    address: &Text,
) -> Result<u32, AllocError>
    ensures grows { (more : List (List ℕ)) × (addresses.new.keys ≡ addresses.old.keys ++ more) }
    ensures number { IfOk result (λ number. IsNumber addresses.new.keys number) }
    ensures address { IfOk result (λ number.
        address_at addresses.new.keys number ≡ address.now) }
{
    if let Some(place) = addresses.get_index_of(address) {
        return Ok(number_of(place)?);
    }
    let place = number_of(addresses.len())?;
    addresses.insert(address.copy(alloc)?)?;
    Ok(place)
}

/// Adds the numbers that a node of the tree names; where memory runs out, those of the first ones.
fn push_numbers<T: TileTree>(
    alloc: Global,
    addresses: &mut IndexSet<Text>,
    numbers: &mut Vec<u32>,
    tree: &T,
    node: Node,
) -> Result<(), AllocError>
    requires { IsTrue ((T.standing tree.now).is_valid node) }
    ensures adds { (xs : List (List ℕ)) × AddsNumbers addresses.old.keys numbers.old.items
        addresses.new.keys numbers.new.items xs }
    ensures all { let t = (T.standing tree.now).node_tree node in
        OnOk result (AddsNumbers addresses.old.keys numbers.old.items
        addresses.new.keys numbers.new.items (addresses_of t)) }
{
    for i in 0..tree.content_count(node) {
        let number = number_for(alloc, addresses, tree.content(node, i))?;
        numbers.push(number)?;
    }
    Ok(())
}

impl NameList {
    ghost use Rattle.std.specs.Prelude.{map};
    ghost use Rattle.view_notes.specs.Names.{AreNumbered, names_of};

    /// No nodes.
    pub fn new(alloc: Global) -> NameList
        ensures { result.numbers ≡ [] }
    {
        NameList {
            addresses: IndexSet::new(alloc),
            numbers: Vec::new(alloc),
            spans: Vec::new(alloc),
        }
    }

    /// Adds a node of the tree.
    pub fn push_node<T: TileTree>(
        &mut self,
        alloc: Global,
        tree: &T,
        node: Node,
    ) -> Result<(), AllocError>
        requires { IsTrue ((T.standing tree.now).is_valid node) }
        ensures { let t = (T.standing tree.now).node_tree node in
            OnOk result (names_of self.new ≡ names_of self.old ++ addresses_of t ∷ []) }
    {
        let start = number_of(self.numbers.len())?;
        push_numbers(alloc, &mut self.addresses, &mut self.numbers, tree, node)?;
        let end = number_of(self.numbers.len())?;
        self.spans.push(Span { start, end })?;
        Ok(())
    }

    /// How many nodes there are.
    pub fn len(&self) -> usize
        ensures len { result ≡ length self.now.numbers }
        ensures numbered { AreNumbered self.now }
    {
        self.spans.len()
    }

    /// The number of an address, if a node names it.
    pub fn find(&self, address: &Text) -> Option<usize>
        ensures number { result ≡ position (bytes_eq address.now) self.now.addresses }
        ensures found { is_some result ≡ list_any (bytes_eq address.now) self.now.addresses }
        ensures numbered { AreNumbered self.now }
    {
        self.addresses.get_index_of(address)
    }

    /// The numbers that a node names.
    pub fn numbers(&self, node: usize) -> &[u32]
        requires { node < length self.now.numbers }
        ensures numbers { slice_get self.now.numbers node ≡ Some result.now }
        ensures numbered { AreNumbered self.now }
    {
        let span = self.spans[node];
        &self.numbers[span.start as usize..span.end as usize]
    }

    /// The address of a number.
    pub fn address(&self, number: u32) -> &Text
        requires { number < length self.now.addresses }
        ensures { address_at self.now.addresses number ≡ result.now }
    {
        &self.addresses.as_slice()[number as usize]
    }
}
