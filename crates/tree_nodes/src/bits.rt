//! The bits of subtrees at hand, and the contents that they tell of, where no step is counted.

ghost use Rattle.std.specs.Prelude.{◌≡◌, ◌<◌, IfOk, length};
ghost use Rattle.implicit_walk.specs.Places.{IsPlace};
ghost use Rattle.implicit_walk.specs.Presences as presences;
ghost use Rattle.implicit_walk.specs.Presences.{IsOfRoot};

use implicit_walk::{ImplicitRoot, Place};
use std::alloc::{AllocError, Global};
use std::marker::Brand;
use std::sync::ledger::{Blank, Ledger};
use subtree_binary::Subtree;
use tile_types::Steps;
use tile_uri::Address;

/// The bit of a tile that is in the subtree.
#[inline]
pub(crate) fn has_tile(root: &ImplicitRoot, subtree: &Subtree, at: Place) -> bool
    requires place { IsPlace root.now.part at }
    requires subtree { IsOfRoot root.now.part subtree.now }
    ensures { result ≡ presences.has_tile root.now.part subtree.now at }
{
    count_tile::<Brand>(root, subtree, at, Blank::new(1))
}

fn count_tile<L: Ledger>(root: &ImplicitRoot, subtree: &Subtree, at: Place, blank: Blank) -> bool
    requires name { blank.name ≡ L.name }
    requires parts { blank.parts ≡ L.parts }
    requires some { 0 < L.parts }
    requires place { IsPlace root.now.part at }
    requires subtree { IsOfRoot root.now.part subtree.now }
    ensures { result ≡ presences.has_tile root.now.part subtree.now at }
{
    let mut steps = Steps::<L>::new(blank);
    implicit_walk::has_tile(root, subtree, at, &mut steps)
}

/// The bit of the child subtree that begins with a tile: the subtree is that of the tile's parent.
#[inline]
pub(crate) fn has_child_subtree(root: &ImplicitRoot, subtree: &Subtree, at: Place) -> bool
    requires place { IsPlace root.now.part at }
    requires subtree { IsOfRoot root.now.part subtree.now }
    ensures { result ≡ presences.has_child_subtree root.now.part subtree.now at }
{
    count_child_subtree::<Brand>(root, subtree, at, Blank::new(1))
}

fn count_child_subtree<L: Ledger>(
    root: &ImplicitRoot,
    subtree: &Subtree,
    at: Place,
    blank: Blank,
) -> bool
    requires name { blank.name ≡ L.name }
    requires parts { blank.parts ≡ L.parts }
    requires some { 0 < L.parts }
    requires place { IsPlace root.now.part at }
    requires subtree { IsOfRoot root.now.part subtree.now }
    ensures { result ≡ presences.has_child_subtree root.now.part subtree.now at }
{
    let mut steps = Steps::<L>::new(blank);
    implicit_walk::has_child_subtree(root, subtree, at, &mut steps)
}

/// The address of the content of a tile that is in the subtree. Only an address takes memory.
#[inline]
pub(crate) fn content_in(
    alloc: Global,
    root: &ImplicitRoot,
    subtree: &Subtree,
    at: Place,
    which: u32,
) -> Result<Option<Address>, AllocError>
    requires place { IsPlace root.now.part at }
    requires subtree { IsOfRoot root.now.part subtree.now }
    requires which { which < length root.now.part.contents }
    ensures { IfOk result (λ a. a ≡ presences.content_in root.now subtree.now at which) }
{
    count_content::<Brand>(alloc, root, subtree, at, which, Blank::new(1))
}

fn count_content<L: Ledger>(
    alloc: Global,
    root: &ImplicitRoot,
    subtree: &Subtree,
    at: Place,
    which: u32,
    blank: Blank,
) -> Result<Option<Address>, AllocError>
    requires name { blank.name ≡ L.name }
    requires parts { blank.parts ≡ L.parts }
    requires some { 0 < L.parts }
    requires place { IsPlace root.now.part at }
    requires subtree { IsOfRoot root.now.part subtree.now }
    requires which { which < length root.now.part.contents }
    ensures { IfOk result (λ a. a ≡ presences.content_in root.now subtree.now at which) }
{
    let mut steps = Steps::<L>::new(blank);
    implicit_walk::content_in(alloc, root, subtree, at, which, &mut steps)
}
