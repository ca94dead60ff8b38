//! All nodes of a tree in one list, level by level.

ghost use Rattle.std.specs.Prelude.{◌≡◌, length, IfOk, IfErr};
ghost use Rattle.tree_nodes.specs.Trees.{size_of, stored_tree};
ghost use Rattle.expanded_tree.specs.Tree.{tree_size};
ghost use Rattle.tree_nodes.specs.Growth.{IsWithin, Refuses as RefusesNodes};
ghost use Rattle.tree_nodes.specs.Nodes.{IsSoundList, node_trees};
ghost use Rattle.tree_nodes.specs.TreeIn.{tree_in};
ghost use Rattle.plain_tree.specs.Grown.{IsGrown};
ghost use Rattle.plain_tree.specs.Listed.{IsListed};
ghost use Rattle.plain_tree.specs.Refusals.{Refuses};

use crate::error::PlainError;
use doc_store::DocStore;
use std::alloc::Global;
use tree_nodes::{ListError, NodeList};

/// All nodes of a tree, level by level.
#[derive(Drop)]
pub(crate) struct PlainList {
    pub(crate) list: NodeList,
    /// Where the children of each node begin, and last where those of the last node end: each begin
    /// where those of the node before it end.
    pub(crate) bounds: Vec<u64>,
}

/// Adds the nodes below the one that there is, and answers where the children of each begin.
fn grow(
    alloc: Global,
    store: &DocStore,
    list: &mut NodeList,
    limit: Option<u32>,
) -> Result<Vec<u64>, ListError>
    requires sound { IsSoundList store.now list.old }
    requires one { length list.old.nodes.items ≡ 1 }
    ensures grown { IfOk result (λ bounds. IsGrown store.now limit list.old list.new bounds.items) }
    ensures refused { IfErr result (λ e. RefusesNodes limit
        (tree_size (tree_in (node_trees store.now list.old) 0)) e) }
{
    let mut bounds = Vec::new(alloc);
    let Ok(()) = bounds.push(1) else {
        return Err(ListError::OutOfMemory);
    };
    let mut place = 0;
    while place < list.nodes.len() {
        match list.push_children(alloc, store, place as u64, limit) {
            Err(e) => return Err(e),
            Ok(()) => {}
        }
        let end = list.nodes.len() as u64;
        let Ok(()) = bounds.push(end) else {
            return Err(ListError::OutOfMemory);
        };
        place += 1;
    }
    Ok(bounds)
}

/// The nodes of the tree of a store's documents, unless they are more than the limit.
pub(crate) fn list_nodes(
    alloc: Global,
    store: &DocStore,
    limit: Option<u32>,
) -> Result<PlainList, PlainError>
    ensures listed { IfOk result (λ plain. IsListed store.now plain) }
    ensures within { IfOk result (λ _. IsWithin limit (size_of (stored_tree store.now))) }
    ensures refused { IfErr result (λ e. Refuses limit (size_of (stored_tree store.now)) e) }
{
    let Ok(mut list) = NodeList::new(alloc) else {
        return Err(PlainError::OutOfMemory);
    };
    match list.push_root(alloc, store, limit) {
        Err(e) => return Err(PlainError::of(e)),
        Ok(()) => {}
    }
    if list.nodes.len() == 0 {
        return Ok(PlainList {
            list,
            bounds: Vec::new(alloc),
        });
    }
    match grow(alloc, store, &mut list, limit) {
        Err(e) => Err(PlainError::of(e)),
        Ok(bounds) => Ok(PlainList { list, bounds }),
    }
}
