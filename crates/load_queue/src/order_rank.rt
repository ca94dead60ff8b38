//! The ranks of an order.

ghost use Rattle.std.specs.Prelude.{◌≡◌};
ghost use Rattle.load_queue.specs.Best.{rank};

use crate::rank::Rank;
use fixed_geometry::ERROR_LIMIT;
use tile_types::{Order, TileFacts};

/// Ranks the wants by an order.
#[derive(Clone, Copy, Debug, PartialEq, Eq)]
pub struct OrderRank {
    pub order: Order,
}

impl Rank for OrderRank {
    ghost order = { λ ranking. ranking.order };

    fn rank_of(&self, facts: &TileFacts) -> u64 {
        match self.order {
            Order::Near => facts.distance,
            Order::Coarse => ERROR_LIMIT - facts.error,
            Order::Listed => 0,
        }
    }
}
