//! What ranks the wants.

ghost use Rattle.std.specs.Prelude.{◌≡◌, ◌≤◌};
ghost use Rattle.fixed_geometry.specs.declared.limits.TheConstants.{ERROR_LIMIT};
ghost use Rattle.tile_types.specs.declared.order.Order.{Order};
ghost use Rattle.load_queue.specs.Best.{rank};

use tile_types::TileFacts;

/// What ranks the wants of a queue by an order: the less the rank, the sooner the load.
///
/// Contracts see the order that it ranks by, and that it gives each want the rank of that order.
pub trait Rank {
    ghost order: { Self → Order };

    /// The rank of a want with these facts: its distance in millimetres, or how far its error is
    /// below the greatest, in micrometres, or 0 in the order of the list. It is at most 2^50.
    fn rank_of(&self, facts: &TileFacts) -> u64
        ensures rank { result ≡ rank (order self.now) facts.now }
        ensures within { result ≤ ERROR_LIMIT };
}
