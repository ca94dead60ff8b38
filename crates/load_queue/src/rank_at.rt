//! A rank with its place.

ghost use Rattle.std.specs.Prelude.{◌≡◌};
ghost use Rattle.load_queue.specs.Trees.{first_of};

/// A rank, and the place in a list at which it stands.
#[derive(Clone, Copy)]
pub struct RankAt {
    pub rank: u64,
    pub place: usize,
}

impl RankAt {
    /// The one of the lesser rank, and of equal ranks the earlier one.
    pub fn first_of(self, other: RankAt) -> RankAt
        ensures { result ≡ first_of self other }
    {
        if other.rank < self.rank {
            return other;
        }
        if self.rank < other.rank {
            return self;
        }
        if other.place < self.place {
            other
        } else {
            self
        }
    }
}
