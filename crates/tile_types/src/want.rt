//! What viewers want loaded.

use crate::key::Key;
use lists::List;
use std::marker::Model;

/// What a load is ranked by, over the nodes that want it: their least distance to the viewer in
/// millimetres, at most 2^40, and their greatest geometric error in micrometres, at most 2^50.
#[derive(Clone, Copy, Debug, PartialEq, Eq)]
pub struct TileFacts {
    pub distance: u64,
    pub error: u64,
}

impl Model for TileFacts {
    ghost use Rattle.tile_types.specs.Wants.{Ranks, AreRanks};

    ghost Value = { Ranks };

    ghost view = { λ f. record { distance = f.distance; error = f.error } };

    ghost invariant = { λ f. AreRanks f.distance f.error };

    ghost inverse = { λ r. record { distance = r.distance; error = r.error } };
}

/// A key that a viewer wants loaded, and what it is ranked by.
#[derive(Debug, Drop)]
pub struct Want {
    pub key: Key,
    pub facts: TileFacts,
}

/// Wants, in order.
pub type WantList = List<Want>;
