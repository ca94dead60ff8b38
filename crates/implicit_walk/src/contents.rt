//! The contents of tiles.

ghost use Rattle.std.specs.Prelude.{◌≡◌, ◌≤◌, ◌<◌, ◌+◌, false, IfOk, IsOk, length};
ghost use Rattle.implicit_walk.specs.Places.{IsPlace};
ghost use Rattle.implicit_walk.specs.Presences as presences;
ghost use Rattle.implicit_walk.specs.Presences.{IsOfRoot, presence};
ghost use Rattle.implicit_walk.specs.declared.presence.Presence.TheVariants.{Tile};

use crate::implicit_root::ImplicitRoot;
use crate::place::Place;
use crate::presence::subtree_at;
use crate::subtree_bits::has_content;
use std::alloc::{AllocError, Global};
use std::sync::ledger::Ledger;
use subtree_binary::{Subtree, Subtrees};
use tile_types::Steps;
use tile_uri::Address;

/// The address of a tile's content, `which` from 0 (OGC 22-025r4, "Availability"). None exactly
/// where its bit isn't set or its filled template names no address. It reads at most one bit.
pub fn content_at<T: Subtrees, L: Ledger>(
    alloc: Global,
    root: &ImplicitRoot,
    trees: &T,
    at: Place,
    which: u32,
    steps: &mut Steps<L>,
) -> Result<Option<Address>, AllocError>
    requires place { IsPlace root.now.part at }
    requires which { which < length root.now.part.contents }
    requires tile { presence root.now (T.found trees.now) at ≡ Tile }
    ensures value { IfOk result (λ a.
        a ≡ presences.content_at root.now (T.found trees.now) at which) }
    ensures steps { steps.new ≤ steps.old + 1 }
{
    match subtree_at(alloc, root, trees, at) {
        Ok(Some(subtree)) => content_in(alloc, root, subtree, at, which, steps),
        Ok(None) => Ok(None),
        Err(e) => Err(e),
    }
}

/// The same where the subtree that the tile is in is at hand. It reads at most one bit.
pub fn content_in<L: Ledger>(
    alloc: Global,
    root: &ImplicitRoot,
    subtree: &Subtree,
    at: Place,
    which: u32,
    steps: &mut Steps<L>,
) -> Result<Option<Address>, AllocError>
    requires place { IsPlace root.now.part at }
    requires subtree { IsOfRoot root.now.part subtree.now }
    requires which { which < length root.now.part.contents }
    ensures value { IfOk result (λ a. a ≡ presences.content_in root.now subtree.now at which) }
    ensures steps { steps.new ≤ steps.old + 1 }

    // Only an address takes memory.
    ensures unset { presences.has_content root.now.part subtree.now at which ≡ false
        → IsOk result }
{
    if !has_content(root, subtree, at, which, steps) {
        return Ok(None);
    }
    root.address_at(alloc, &root.part().contents()[which as usize], at)
}
