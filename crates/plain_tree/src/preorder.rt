//! All nodes in preorder.

ghost use Rattle.std.specs.Prelude.{◌≡◌, ◌<◌, All, IfOk, length, map};
ghost use Rattle.tree_nodes.specs.TreeIn.{tree_in};
ghost use Rattle.plain_tree.specs.Preorder.{nodes_of};
ghost use Rattle.tree_nodes.specs.Trees.{stored_tree};
ghost use Rattle.tree_nodes.specs.Nodes.{node_trees};
ghost use Rattle.plain_tree.specs.Listed.{IsListed};

use crate::plain_list::PlainList;
use doc_store::DocStore;
use expanded_tree::Node;
use std::alloc::{AllocError, Global};

/// Nodes side by side, from one place up to another.
#[derive(Clone, Copy, Debug)]
struct Siblings {
    next: u64,
    end: u64,
}

/// The nodes of a list in preorder.
pub(crate) fn list_preorder(
    alloc: Global,
    _store: &DocStore,
    plain: &PlainList,
) -> Result<Vec<Node>, AllocError>
    requires { IsListed _store.now plain.now }
    ensures valid { IfOk result (λ nodes.
        All (λ n. n.number < length (node_trees _store.now plain.now.list)) nodes.items) }
    ensures trees { IfOk result (λ nodes.
        map (λ n. tree_in (node_trees _store.now plain.now.list) n.number) nodes.items
        ≡ nodes_of (stored_tree _store.now)) }
{
    let mut listed = Vec::new(alloc);
    let mut stack = Vec::new(alloc);
    let end = plain.list.nodes.len().min(1) as u64;
    stack.push(Siblings { next: 0, end })?;
    while let Some(siblings) = stack.pop() {
        if siblings.next < siblings.end {
            let place = siblings.next;
            listed.push(Node { number: place })?;
            stack.push(Siblings {
                next: place + 1,
                end: siblings.end,
            })?;
            stack.push(Siblings {
                next: plain.bounds[place as usize],
                end: plain.bounds[place as usize + 1],
            })?;
        }
    }
    Ok(listed)
}
