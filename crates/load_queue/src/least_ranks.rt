//! Ranks in a row, of which the first least one is at hand.

ghost use Rattle.std.specs.Prelude.{◌≡◌, ◌*◌, ◌+◌, ◌<◌, ◌≤◌, ℕ, [], length, map, drop, slice_get};
ghost use Rattle.std.specs.Prelude.{IfOk, MatchOption, OnOk, slice_set};
ghost use Rattle.load_queue.specs.Trees.{AreFilled, AreFilledBut, ArePlaced, IsFirstLeast, node};

use crate::rank_at::RankAt;
use std::alloc::{AllocError, Global};
use std::marker::Model;

/// Ranks by their places, counted from 0. Contracts see the list of them.
///
/// They stand at the leaves of a binary tree, each of whose inner nodes has the first least one of
/// the ranks below it: so the first least of all is at the root, and a rank that changes changes
/// only the nodes above it.
#[derive(Drop)]
pub struct LeastRanks {
    /// The nodes: below node `i` stand the nodes `2 * i` and `2 * i + 1`, the root is node 1, and
    /// the leaves are the second half. Node 0 stands nowhere.
    nodes: Vec<RankAt>,
    count: usize,
}

impl Model for LeastRanks {
    ghost use Rattle.std.specs.Prelude.{List, ℕ};
    ghost use Rattle.load_queue.specs.Trees.{IsTree, ranks_in};

    ghost Value = { List ℕ };

    ghost view = { λ r. ranks_in r.count r.nodes.items };

    ghost invariant = { λ r. IsTree r.count r.nodes.items };
}

impl LeastRanks {
    /// No ranks.
    pub fn new(alloc: Global) -> LeastRanks
        ensures { result ≡ [] }
    {
        LeastRanks {
            nodes: Vec::new(alloc),
            count: 0,
        }
    }

    /// These ranks, each at its place.
    pub fn from_ranks(alloc: Global, ranks: &[u64]) -> Result<LeastRanks, AllocError>
        ensures { IfOk result (λ least. least ≡ ranks.now) }
    {
        let count = ranks.len();
        let mut nodes = Vec::new(alloc);
        // What the inner nodes begin with is overwritten.
        push_leaves(&mut nodes, ranks)?;
        push_leaves(&mut nodes, ranks)?;
        fill_inner(&mut nodes, count);
        Ok(LeastRanks { nodes, count })
    }

    /// The first of the least ranks.
    pub fn first_least(&self) -> Option<RankAt>
        ensures { MatchOption result (self.now ≡ [])
            (λ first. IsFirstLeast self.now first.rank first.place) }
    {
        if self.count == 0 {
            return None;
        }
        Some(self.nodes[1])
    }

    /// Sets the rank at a place.
    pub fn set(&mut self, place: usize, rank: u64)
        requires { place < length self.old }
        ensures { self.new ≡ slice_set self.old place rank }
    {
        let leaf = self.count + place;
        self.nodes[leaf] = RankAt { rank, place };
        refill_above(&mut self.nodes, self.count, leaf);
    }
}

/// Adds ranks with their places.
fn push_leaves(nodes: &mut Vec<RankAt>, ranks: &[u64]) -> Result<(), AllocError>
    ensures { OnOk result (ArePlaced nodes.old.items ranks.now nodes.new.items) }
{
    for (place, rank) in ranks.iter().enumerate() {
        nodes.push(RankAt { rank: *rank, place })?;
    }
    Ok(())
}

/// Fills each inner node, from the last to the root.
fn fill_inner(nodes: &mut [RankAt], count: usize)
    requires { length nodes.old ≡ 2 * count }
    ensures leaves { (q : ℕ) → count ≤ q → node nodes.new q ≡ node nodes.old q }
    ensures filled { AreFilled count nodes.new }
{
    for i in (1..count).rev() {
        nodes[i] = nodes[2 * i].first_of(nodes[2 * i + 1]);
    }
}

/// Fills the nodes above a leaf that was changed, up to the root.
fn refill_above(nodes: &mut [RankAt], count: usize, leaf: usize)
    requires len { length nodes.old ≡ 2 * count }
    requires within { (count ≤ leaf) × (leaf < 2 * count) }
    requires filled { AreFilledBut count leaf nodes.old }
    ensures leaves { (q : ℕ) → count ≤ q → node nodes.new q ≡ node nodes.old q }
    ensures filled { AreFilled count nodes.new }
{
    let mut i = leaf;
    while i > 1 {
        i /= 2;
        nodes[i] = nodes[2 * i].first_of(nodes[2 * i + 1]);
    }
}
