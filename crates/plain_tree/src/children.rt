//! Where the children of a node stand.

ghost use Rattle.std.specs.Prelude.{◌≡◌, ◌<◌, Some, length, slice_get};
ghost use Rattle.expanded_tree.specs.Tree.{children_of};
ghost use Rattle.tree_nodes.specs.Nodes.{node_trees};
ghost use Rattle.tree_nodes.specs.TreeIn.{tree_in};
ghost use Rattle.plain_tree.specs.Windows.{IsParent};

use crate::plain_list::PlainList;
use doc_store::DocStore;

/// How many children the node at a place has.
pub(crate) fn child_count_at(_store: &DocStore, plain: &PlainList, place: u64) -> u32
    requires { IsParent (node_trees _store.now plain.now.list) plain.now.bounds.items place }
    ensures { result ≡ length (children_of (tree_in (node_trees _store.now plain.now.list) place)) }
{
    let first = plain.bounds[place as usize];
    let end = plain.bounds[place as usize + 1];
    (end - first) as u32
}

/// The place of the child `i` of the node at a place.
pub(crate) fn child_at(_store: &DocStore, plain: &PlainList, place: u64, i: u32) -> u64
    requires parent { IsParent (node_trees _store.now plain.now.list) plain.now.bounds.items place }
    requires within { i < length
        (children_of (tree_in (node_trees _store.now plain.now.list) place)) }
    ensures within { result < length (node_trees _store.now plain.now.list) }
    ensures tree { slice_get (children_of (tree_in (node_trees _store.now plain.now.list) place)) i
        ≡ Some (tree_in (node_trees _store.now plain.now.list) result) }
{
    plain.bounds[place as usize] + u64::from(i)
}
