//! The numbers of tiles and of child subtrees in a subtree (OGC 22-025r4, "Availability
//! Bitstreams").

ghost use Rattle.std.specs.Prelude.{◌≡◌, ◌≤◌, ◌<◌, ◌^◌, Bool};
ghost use Rattle.implicit_walk.specs.Places as places;
ghost use Rattle.implicit_walk.specs.Places.{IsPlace, child_subtree_number, number_in_subtree};
ghost use Rattle.subtree_binary.specs.Counts.{child_count, tile_count};

use crate::implicit_root::ImplicitRoot;
use crate::place::Place;
use avail_bits::{further_digits_add_nothing, morton2, morton3};

/// On which level of its subtree a tile is, from 0.
#[inline]
pub(crate) fn local_level(root: &ImplicitRoot, at: Place) -> u8
    requires { IsPlace root.now.part at }
    ensures value { result ≡ places.local_level root.now.part at }
    ensures within { result ≤ at.level }
    ensures few { result < 30 }
{
    at.level % root.part().subtree_levels()
}

/// Whether a subtree that stands below another begins with the tile.
#[inline]
pub fn begins_subtree(root: &ImplicitRoot, at: Place) -> bool
    requires { IsPlace root.now.part at }
    ensures { result ≡ places.begins_subtree root.now.part at }
{
    at.level > 0 && local_level(root, at) == 0
}

/// The number of a tile among those of its subtree, which is that of its bit.
#[inline]
pub fn tile_number(root: &ImplicitRoot, at: Place) -> u64
    requires { IsPlace root.now.part at }
    ensures value { result ≡ number_in_subtree root.now.part at }
    ensures within { let part = root.now.part in
        result < tile_count part.octree part.subtree_levels }
{
    let octree = root.part().octree();
    let local = at.below(local_level(root, at));
    tiles_above(octree, local.level) + morton(octree, local)
}

/// The number of the child subtree that begins with a tile, which is that of its bit in the subtree
/// above.
#[inline]
pub(crate) fn child_subtree_number(root: &ImplicitRoot, at: Place) -> u64
    requires { IsPlace root.now.part at }
    ensures value { result ≡ child_subtree_number root.now.part at }
    ensures within { let part = root.now.part in
        result < child_count part.octree part.subtree_levels }
{
    let part = root.part();
    morton(part.octree(), at.below(part.subtree_levels()))
}

/// How many tiles stand on all levels above this one.
#[inline]
fn tiles_above(octree: bool, level: u8) -> u64
    requires { level ≤ 12 }
    ensures { result ≡ tile_count octree level }
{
    if octree {
        ((1 << (3 * level)) - 1) / 7
    } else {
        ((1 << (2 * level)) - 1) / 3
    }
}

/// The number of a cell among those of its level.
#[inline]
fn morton(octree: bool, at: Place) -> u64
    requires level { at.level ≤ 12 }
    requires x { at.x < 2 ^ at.level }
    requires y { at.y < 2 ^ at.level }
    requires z { at.z < 2 ^ at.level }
    ensures { result ≡ places.morton octree at }
{
    further_digits_add_nothing();
    if octree {
        morton3(at.x, at.y, at.z)
    } else {
        morton2(at.x, at.y)
    }
}
