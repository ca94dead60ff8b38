//! Which nodes name a content.

ghost use Rattle.std.specs.Prelude.{All, ◌≡◌, ◌++◌, ◌<◌, ◌≤◌, [], IfOk, OnOk, false, filter, fold, length, map, nat_le, nat_lt, slice_index_or, true};
ghost use Rattle.std.specs.List.{list_any};
ghost use Rattle.std.specs.List.Sorted.{IsNonDecreasing, IsPartitionPoint};
ghost use Rattle.cut_core.specs.Visits.{content_key};
ghost use Rattle.cut_core.specs.WantMap.{wants_in};
ghost use Rattle.cut_core.specs.Wants.{is_missing, want_with, with_want};
ghost use Rattle.view_notes.specs.Index.{pair_of, pairs_of};
ghost use Rattle.view_notes.specs.Names.{AreNumbered, names_of};
ghost use Rattle.view_notes.specs.Users.{AreUsers};

use crate::awaited::Awaited;
use crate::name_pair::NamePair;
use crate::names::NameList;
use crate::number::number_of;
use cut_core::{Holdings, WantMap, is_missing, key_of_content};
use std::alloc::{AllocError, Global};
use std::marker::Model;
use tile_types::{Text, TileFacts};

/// The contents that nodes name, and the nodes that name a content. Contracts see the addresses
/// that each node names.
#[derive(Drop)]
pub struct ContentIndex {
    names: NameList,
    /// The numbers that all nodes name, in order.
    contents: Vec<u32>,
    /// The node that names each of them, at its place.
    users: Vec<u32>,
}

impl Model for ContentIndex {
    ghost use Rattle.std.specs.Prelude.{List, ℕ};
    ghost use Rattle.view_notes.specs.Index.{IsIndex};
    ghost use Rattle.view_notes.specs.Names.{names_of};

    ghost Value = { List (List (List ℕ)) };

    ghost view = { λ index. names_of index.names };

    ghost invariant = { λ index. IsIndex index.names index.contents.items index.users.items };
}

/// Adds the pairs of one node.
fn push_pairs(pairs: &mut Vec<NamePair>, user: u32, numbers: &[u32]) -> Result<(), AllocError>
    ensures { OnOk result (pairs.new.items ≡ pairs.old.items ++ map (pair_of user) numbers.now) }
{
    for content in numbers {
        pairs.push(NamePair {
            content: *content,
            user,
        })?;
    }
    Ok(())
}

/// The pairs of all nodes.
fn name_pairs(alloc: Global, names: &NameList) -> Result<Vec<NamePair>, AllocError>
    ensures pairs { IfOk result (λ pairs. pairs.items ≡ pairs_of 0 names.now.numbers) }
    ensures numbered { AreNumbered names.now }
{
    let mut pairs = Vec::new(alloc);
    for user in 0..number_of(names.len())? {
        push_pairs(&mut pairs, user, names.numbers(user as usize))?;
    }
    Ok(pairs)
}

/// Where the numbers of this content begin and end, among numbers in order.
fn part_of(contents: &[u32], content: usize) -> (usize, usize)
    requires { IsNonDecreasing contents.now }
    ensures start { IsPartitionPoint (λ y. nat_lt y content ≡ true)
        (λ y. nat_lt y content ≡ false) contents.now result.0 }
    ensures end { IsPartitionPoint (λ y. nat_le y content ≡ true)
        (λ y. nat_le y content ≡ false) contents.now result.1 }
    ensures start_within { result.0 ≤ length contents.now }
    ensures end_within { result.1 ≤ length contents.now }
{
    let start = contents.partition_point(|other| (*other as usize) < content);
    let end = contents.partition_point(|other| *other as usize <= content);
    (start, end)
}

impl ContentIndex {
    /// An index of no nodes.
    pub fn new(alloc: Global) -> ContentIndex
        ensures { result ≡ [] }
    {
        ContentIndex {
            names: NameList::new(alloc),
            contents: Vec::new(alloc),
            users: Vec::new(alloc),
        }
    }

    /// An index of the nodes.
    pub fn from_names(alloc: Global, names: NameList) -> Result<ContentIndex, AllocError>
        ensures { IfOk result (λ index. index ≡ names_of names) }
    {
        let mut pairs = name_pairs(alloc, &names)?;
        pairs.sort_unstable_by_key(|pair| pair.content);
        let contents = pairs.iter().map(|pair| pair.content).collect(alloc)?;
        let users = pairs.iter().map(|pair| pair.user).collect(alloc)?;
        Ok(ContentIndex {
            names,
            contents,
            users,
        })
    }

    /// How many nodes there are.
    pub fn len(&self) -> usize
        ensures { result ≡ length self.now }
    {
        self.names.len()
    }

    /// The numbers of the nodes that name a content, each as often as the node names it. It takes
    /// no memory.
    pub fn users(&self, address: &Text) -> &[u32]
        ensures users { AreUsers address.now result.now 0 self.now }
        ensures within { All (λ u. u < length self.now) result.now }
    {
        let Some(content) = self.names.find(address) else {
            return &[];
        };
        let (start, end) = part_of(&self.contents, content);
        &self.users[start..end]
    }

    /// Whether a node names an awaited content.
    pub fn names_awaited<A: Awaited>(&self, node: u32, awaited: &A) -> bool
        requires { node < length self.now }
        ensures { result ≡ list_any (A.awaited awaited.now) (slice_index_or self.now node []) }
    {
        for number in self.names.numbers(node as usize) {
            if awaited.is_awaited(self.names.address(*number)) {
                return true;
            }
        }
        false
    }

    /// Adds the wants for the missing ones of the contents that a node names.
    pub fn put_missing<H: Holdings>(
        &self,
        alloc: Global,
        holdings: &H,
        node: usize,
        facts: TileFacts,
        wants: &mut WantMap,
    ) -> Result<(), AllocError>
        requires { node < length self.now }
        ensures { let names = slice_index_or self.now node [] in
            let missing = filter (is_missing (H.holdings holdings.now)) names in
            OnOk result (wants_in wants.new ≡ fold with_want (wants_in wants.old)
            (map (want_with facts) (map content_key missing))) }
    {
        for number in self.names.numbers(node) {
            let address = self.names.address(*number);
            if is_missing(holdings, address) {
                let key = key_of_content(alloc, address)?;
                wants.put(key, facts)?;
            }
        }
        Ok(())
    }
}
