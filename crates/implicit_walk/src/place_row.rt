//! A few places in a row.

ghost use Rattle.std.specs.Prelude.{◌≡◌, ◌<◌, ◌^◌, [], length, map, option_map, slice_get};
ghost use Rattle.std.specs.List.{range_with_len};
ghost use Rattle.implicit_walk.specs.Places.{child};

use crate::place::Place;
use std::marker::Model;

/// How many children a tile has at most.
pub const CHILD_LIMIT: usize = 8;

/// Up to eight places, which lie in the row itself. Contracts see the list.
#[derive(Drop)]
pub struct PlaceRow {
    /// What stands behind the first `len` is anything.
    places: [Place; CHILD_LIMIT],
    len: usize,
}

impl Model for PlaceRow {
    ghost use Rattle.std.specs.Prelude.{◌≤◌, List, take};
    ghost use Rattle.implicit_walk.specs.declared.place.Place.{Place};

    ghost Value = { List Place };

    ghost view = { λ r. take r.len r.places };

    ghost invariant = { λ r. r.len ≤ 8 };
}

impl PlaceRow {
    pub(crate) fn empty() -> PlaceRow
        ensures { result ≡ [] }
    {
        PlaceRow {
            places: [Place::root(); CHILD_LIMIT],
            len: 0,
        }
    }

    /// The four children of a quadtree's tile, in Morton order.
    pub(crate) fn quadrants(at: Place) -> PlaceRow
        requires level { at.level < 255 }
        requires x { at.x < 2 ^ 30 }
        requires y { at.y < 2 ^ 30 }
        requires z { at.z < 2 ^ 30 }
        ensures { result ≡ map (child at) (range_with_len 0 4) }
    {
        let (a, b, c, d) = (at.child(0), at.child(1), at.child(2), at.child(3));
        PlaceRow {
            places: [a, b, c, d, d, d, d, d],
            len: 4,
        }
    }

    /// The eight children of an octree's tile, in Morton order.
    pub(crate) fn octants(at: Place) -> PlaceRow
        requires level { at.level < 255 }
        requires x { at.x < 2 ^ 30 }
        requires y { at.y < 2 ^ 30 }
        requires z { at.z < 2 ^ 30 }
        ensures { result ≡ map (child at) (range_with_len 0 8) }
    {
        PlaceRow {
            places: [
                at.child(0),
                at.child(1),
                at.child(2),
                at.child(3),
                at.child(4),
                at.child(5),
                at.child(6),
                at.child(7),
            ],
            len: CHILD_LIMIT,
        }
    }

    /// How many places there are.
    pub fn len(&self) -> usize
        ensures { result ≡ length self.now }
    {
        self.as_slice().len()
    }

    /// Place `i`; None exactly where there are no more than `i`.
    pub fn get(&self, i: usize) -> Option<&Place>
        ensures { option_map (λ place. place.now) result ≡ slice_get self.now i }
    {
        self.as_slice().get(i)
    }

    /// All of them.
    pub fn as_slice(&self) -> &[Place]
        ensures { result.now ≡ self.now }
    {
        &self.places[..self.len]
    }
}
