//! The trait of the trees that say where their implicit tiles come from.

ghost use Rattle.std.specs.Prelude.{IsTrue};
ghost use Rattle.doc_store.specs.Store.{Stored};
ghost use Rattle.tree_nodes.specs.TablePlaces.{TellsPlace, origin_of};

use crate::table_place::TablePlace;
use expanded_tree::{Node, TileTree};

/// A tree of a store's documents that says where its implicit tiles come from, so that their rows in
/// tables of metadata are found.
pub trait TableTree: TileTree {
    /// The store of the tree's documents.
    ghost stored: { Self → Stored };

    /// Where the bit of a tile is, or None where the node is no implicit tile. It takes no memory.
    fn table_place(&self, node: Node) -> Option<TablePlace>
        requires { IsTrue ((Self.standing self.now).is_valid node) }
        ensures { TellsPlace (stored self.now) (origin_of ((Self.standing self.now).node_tree node)) result };
}
