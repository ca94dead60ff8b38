//! Which tiles there are.

ghost use Rattle.std.specs.Prelude.{◌≡◌, ◌≤◌, ◌<◌, ◌+◌, ◌&&◌, false, IfOk, IfSome, IsOk};
ghost use Rattle.std.specs.Prelude.{option_map};
ghost use Rattle.subtree_binary.specs.Found.{here, here_of};
ghost use Rattle.implicit_walk.specs.Places.{IsPlace, above, begins_subtree};
ghost use Rattle.implicit_walk.specs.Presences as presences;
ghost use Rattle.implicit_walk.specs.Presences.{IsOfRoot, own_presence, presence};

use crate::implicit_root::{ImplicitRoot, subtree_of};
use crate::numbers::begins_subtree;
use crate::place::Place;
use crate::subtree_bits::{has_child_subtree, has_tile};
use std::alloc::{AllocError, Global};
use std::sync::ledger::Ledger;
use subtree_binary::{Subtree, Subtrees};
use tile_types::{Key, Steps};

/// Whether there is a tile at a place.
#[derive(Debug, PartialEq, Eq, Drop)]
pub enum Presence {
    /// There is none.
    No,
    /// There is one.
    Tile,
    /// The subtree of this key decides, once it is loaded.
    Waiting(Key),
}

/// Whether there is a tile at a place whose parent is one (OGC 22-025r4, "Availability"). It reads
/// at most two bits.
pub fn exists<T: Subtrees, L: Ledger>(
    alloc: Global,
    root: &ImplicitRoot,
    trees: &T,
    at: Place,
    steps: &mut Steps<L>,
) -> Result<Presence, AllocError>
    requires { IsPlace root.now.part at }
    ensures value { IfOk result (λ p. p ≡ presence root.now (T.found trees.now) at) }
    ensures steps { steps.new ≤ steps.old + 2 }
{
    if !begins_subtree(root, at) {
        return exists_in_own(alloc, root, trees, at, steps);
    }
    match subtree_at(alloc, root, trees, at.above(1)) {
        Ok(Some(subtree)) => exists_below(alloc, root, trees, subtree, at, steps),
        Ok(None) => Ok(Presence::No),
        Err(e) => Err(e),
    }
}

/// The same where the subtree of the parent is at hand, which saves the look-up of it.
pub fn exists_below<T: Subtrees, L: Ledger>(
    alloc: Global,
    root: &ImplicitRoot,
    trees: &T,
    subtree: &Subtree,
    at: Place,
    steps: &mut Steps<L>,
) -> Result<Presence, AllocError>
    requires place { IsPlace root.now.part at }
    requires level { 0 < at.level }
    requires subtree { IsOfRoot root.now.part subtree.now }
    requires above { presences.subtree_at root.now (T.found trees.now) (above 1 at)
        ≡ here subtree.now }
    ensures value { IfOk result (λ p. p ≡ presence root.now (T.found trees.now) at) }
    ensures steps { steps.new ≤ steps.old + 2 }

    // Only the address of another subtree takes memory.
    ensures at_hand { (begins_subtree root.now.part at
        && presences.has_child_subtree root.now.part subtree.now at) ≡ false → IsOk result }
{
    if !begins_subtree(root, at) {
        return Ok(presence_of(has_tile(root, subtree, at, steps)));
    }
    if !has_child_subtree(root, subtree, at, steps) {
        return Ok(Presence::No);
    }
    exists_in_own(alloc, root, trees, at, steps)
}

/// Whether its own subtree has the tile.
fn exists_in_own<T: Subtrees, L: Ledger>(
    alloc: Global,
    root: &ImplicitRoot,
    trees: &T,
    at: Place,
    steps: &mut Steps<L>,
) -> Result<Presence, AllocError>
    requires { IsPlace root.now.part at }
    ensures value { IfOk result (λ p. p ≡ own_presence root.now (T.found trees.now) at) }
    ensures steps { steps.new ≤ steps.old + 1 }
{
    let Some(key) = subtree_of(alloc, root, at)? else {
        return Ok(Presence::No);
    };
    match trees.subtree(&key) {
        Some(subtree) => Ok(presence_of(has_tile(root, subtree, at, steps))),
        None if trees.lost(&key) => Ok(Presence::No),
        None => Ok(Presence::Waiting(key)),
    }
}

/// What a bit says.
fn presence_of(bit: bool) -> Presence
    ensures { result ≡ presences.presence_of bit }
{
    if bit { Presence::Tile } else { Presence::No }
}

/// The subtree that a tile is in, where it is loaded.
pub fn subtree_at<'a, T: Subtrees>(
    alloc: Global,
    root: &ImplicitRoot,
    trees: &'a T,
    at: Place,
) -> Result<Option<&'a Subtree>, AllocError>
    requires { IsPlace root.now.part at }
    ensures value { IfOk result (λ subtree. option_map (λ s. s.now) subtree
        ≡ here_of (presences.subtree_at root.now (T.found trees.now) at)) }
    ensures of_root { IfOk result (λ subtree.
        IfSome subtree (λ s. IsOfRoot root.now.part s.now)) }
{
    match subtree_of(alloc, root, at)? {
        Some(key) => Ok(trees.subtree(&key)),
        None => Ok(None),
    }
}
