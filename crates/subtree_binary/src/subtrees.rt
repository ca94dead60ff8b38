//! Subtrees by their keys.

ghost use Rattle.std.specs.Prelude.{◌≡◌, ◌↔◌, ℕ, Bool, IfSome, IsTrue, option_map};
ghost use Rattle.subtree_binary.specs.Found.{Found, here_of, lost};
ghost use Rattle.subtree_binary.specs.Subtrees.{HasCounts, SubtreeParts};
ghost use Rattle.tile_types.specs.declared.key.Key.{Key};
ghost use Rattle.tile_types.specs.declared.key.Kind.TheVariants as kinds;

use crate::subtree::Subtree;
use tile_types::Key;

/// What is known of subtrees by their keys. Contracts see it as a function of the key.
pub trait Subtrees {
    /// What is known of a key: it is waited for, nothing comes of it, or the subtree is here.
    ghost found: { Self → Key → Found SubtreeParts };

    /// The subtree of this key, where it is here.
    fn subtree(&self, key: &Key) -> Option<&Subtree>
        ensures value { option_map (λ s. s.now) result ≡ here_of (found self.now key.now) }
        ensures counts { IfSome result (λ s. (octree : Bool) (levels contents : ℕ)
            → key.now.kind ≡ kinds.Subtree octree levels contents
            → HasCounts octree levels contents s.now) };

    /// Whether nothing comes of this key: there are no bytes, or they are no subtree.
    fn lost(&self, key: &Key) -> bool
        ensures { IsTrue result ↔ (found self.now key.now ≡ lost) };
}
