//! A subtree in memory.

ghost use Rattle.std.specs.Prelude.{◌≡◌, ℕ, Bool, true};
ghost use Rattle.tile_types.specs.Keys.{same_kind};
ghost use Rattle.tile_types.specs.declared.key.Kind.TheVariants as kinds;
ghost use Rattle.subtree_binary.specs.Subtrees.{HasCounts};

use subtree_binary::Subtree;
use tile_types::Key;

/// A subtree that was read for its key.
#[derive(Drop)]
pub struct Loaded {
    pub key: Key,
    pub subtree: Subtree,
    ghost counts: { (octree : Bool) (levels contents : ℕ)
        → same_kind key.kind (kinds.Subtree octree levels contents) ≡ true
        → HasCounts octree levels contents subtree },
}
