//! What follows from the definitions, for a walk that keeps a subtree at hand while it goes through
//! the tiles that are in it.

ghost use Rattle.std.specs.Prelude.{◌≡◌, ◌<◌, ℕ, true, false};
ghost use Rattle.subtree_binary.specs.Found.{here};
ghost use Rattle.subtree_binary.specs.Subtrees.{SubtreeParts};
ghost use Rattle.implicit_walk.specs.Places.{above, begins_subtree};
ghost use Rattle.implicit_walk.specs.Presences.{Known, content_at, content_in, has_tile};
ghost use Rattle.implicit_walk.specs.Presences.{presence, subtree_at};
ghost use Rattle.implicit_walk.specs.Roots.{RootParts, subtree_key};
ghost use Rattle.implicit_walk.specs.declared.place.Place.{Place};
ghost use Rattle.implicit_walk.specs.declared.presence.Presence.TheVariants.{Tile};

/// A tile is in the subtree of its parent, unless a subtree begins with it.
pub fn children_share_the_subtree()
    ensures { (root : RootParts) (at : Place) → 0 < at.level
        → begins_subtree root.part at ≡ false
        → subtree_key root at ≡ subtree_key root (above 1 at) }
{}

/// The subtree that a tile is in is loaded, and has its bit.
pub fn tiles_have_their_bit()
    ensures { (root : RootParts) (known : Known) (at : Place) → presence root known at ≡ Tile
        → (subtree : SubtreeParts) × (subtree_at root known at ≡ here subtree)
        × (has_tile root.part subtree at ≡ true) }
{}

/// The contents of a tile are those that its subtree says.
pub fn contents_by_the_subtree()
    ensures { (root : RootParts) (known : Known) (at : Place) (which : ℕ)
        (subtree : SubtreeParts) → presence root known at ≡ Tile
        → subtree_at root known at ≡ here subtree
        → content_at root known at which ≡ content_in root subtree at which }
{}
