//! What follows from the definitions.

ghost use Rattle.std.specs.Prelude.{◌≡◌, ◌∷◌, []};
ghost use Rattle.tileset_schema.specs.Preorder.{rows, trees};
ghost use Rattle.tileset_schema.specs.Tiles.{WrittenTile};

/// The list of the tiles of a document stands for its tree, and for no other: each tile has so many
/// of the trees behind it as its size says.
pub fn list_gives_tree()
    ensures { (root : WrittenTile) → trees (rows root) ≡ root ∷ [] }
{}
