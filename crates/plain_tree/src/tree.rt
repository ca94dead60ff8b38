//! The tree of a store's documents.

ghost use Rattle.std.specs.Prelude.{◌≡◌, ◌↔◌, [], IfOk, IfErr, All, IsTrue, OnOk, map, string_bytes};
ghost use Rattle.std.specs.Prelude.{Some};
ghost use Rattle.expanded_tree.specs.Tree.{name_of};
ghost use Rattle.tree_expansion.specs.Whole.{IsWhole};
ghost use Rattle.plain_tree.specs.Standing.{standing_of};
ghost use Rattle.plain_tree.specs.Preorder.{nodes_of};
ghost use Rattle.tree_nodes.specs.Trees.{size_of, stored_tree};
ghost use Rattle.tree_nodes.specs.Growth.{IsWithin};
ghost use Rattle.plain_tree.specs.Refusals.{Refuses};
ghost use Rattle.plain_tree.specs.declared.limits.TheConstants.{NODE_LIMIT};

use crate::children::{child_at, child_count_at};
use crate::error::PlainError;
use crate::limits::NODE_LIMIT;
use crate::plain_list::{PlainList, list_nodes};
use crate::preorder::list_preorder;
use doc_store::DocStore;
use expanded_tree::{Node, NodeFacts, TileTree};
use std::alloc::{AllocError, Global};
use std::marker::Model;
use tile_types::{Key, Text};
use tree_nodes::{
    TablePlace, TableTree, content_at, content_count_at, facts_at, pending_at, table_place_at,
    write_name, write_name_over,
};

/// The expanded tree of a store's documents, written out node by node.
#[derive(Drop)]
pub struct PlainTree<'a> {
    store: &'a DocStore,
    nodes: PlainList,
    /// The nodes that were opened since the last `top`.
    opened: Vec<Node>,
}

impl<'a> Model for PlainTree<'a> {
    ghost use Rattle.plain_tree.specs.Standing.{Plain};

    ghost Value = { Plain };

    ghost use Rattle.plain_tree.specs.Listed.{IsListed};

    ghost view = { λ t. record {
      store = t.store.now;
      nodes = t.nodes;
      opened = t.opened.items;
    } };

    ghost invariant = { λ t. IsListed t.store.now t.nodes };
}

impl<'a> PlainTree<'a> {
    /// The tree of the documents, of any size.
    pub fn build_whole(alloc: Global, store: &'a DocStore) -> Result<PlainTree<'a>, AllocError>
        ensures store { IfOk result (λ t. t.store ≡ store.now) }
        ensures tree { IfOk result (λ t. (standing_of t).tree ≡ stored_tree store.now) }
        ensures opened { IfOk result (λ t. (standing_of t).opened ≡ []) }
    {
        match list_nodes(alloc, store, None) {
            Err(PlainError::OutOfMemory) => Err(AllocError),
            Err(PlainError::TooLarge) => unreachable!(),
            Ok(nodes) => Ok(PlainTree {
                store,
                nodes,
                opened: Vec::new(alloc),
            }),
        }
    }

    /// Whether no node waits for a document. It takes no memory.
    pub fn is_whole(&self) -> bool
        ensures { IsTrue result ↔ IsWhole (standing_of self.now).tree }
    {
        self.nodes.list.tables.waiting.is_empty()
    }

    /// All nodes in preorder.
    pub fn preorder(&self, alloc: Global) -> Result<Vec<Node>, AllocError>
        ensures valid { IfOk result (λ nodes.
            All (λ n. IsTrue ((standing_of self.now).is_valid n)) nodes.items) }
        ensures trees { IfOk result (λ nodes. map (standing_of self.now).node_tree nodes.items
            ≡ nodes_of (standing_of self.now).tree) }
    {
        list_preorder(alloc, self.store, &self.nodes)
    }

    /// Writes the name of a node in place of what the string held.
    pub fn write_name_over(
        &self,
        alloc: Global,
        node: Node,
        name: &mut String,
    ) -> Result<(), AllocError>
        requires { IsTrue ((standing_of self.now).is_valid node) }
        ensures { OnOk result
            (string_bytes name.new ≡ name_of ((standing_of self.now).node_tree node)) }
    {
        write_name_over(alloc, self.store, &self.nodes.list, node.number, name)
    }

    /// The tree of the documents, if it has at most 1,048,576 nodes.
    pub fn build(alloc: Global, store: &'a DocStore) -> Result<PlainTree<'a>, PlainError>
        ensures store { IfOk result (λ t. t.store ≡ store.now) }
        ensures tree { IfOk result (λ t. (standing_of t).tree ≡ stored_tree store.now) }
        ensures opened { IfOk result (λ t. (standing_of t).opened ≡ []) }
        ensures within { IfOk result (λ _.
            IsWithin (Some NODE_LIMIT) (size_of (stored_tree store.now))) }
        ensures refused { IfErr result (λ e.
            Refuses (Some NODE_LIMIT) (size_of (stored_tree store.now)) e) }
    {
        match list_nodes(alloc, store, Some(NODE_LIMIT)) {
            Err(e) => Err(e),
            Ok(nodes) => Ok(PlainTree {
                store,
                nodes,
                opened: Vec::new(alloc),
            }),
        }
    }
}

impl<'a> TileTree for PlainTree<'a> {
    ghost use Rattle.doc_store.specs.Store.{Stored};

    ghost Basis = { Stored };

    ghost basis = { λ t. t.store };

    ghost standing = { standing_of };

    fn top(&mut self, _alloc: Global) -> Result<Option<Node>, AllocError> {
        self.opened.clear();
        if self.nodes.list.nodes.len() == 0 {
            return Ok(None);
        }
        Ok(Some(Node { number: 0 }))
    }

    fn facts(&self, node: Node) -> NodeFacts {
        facts_at(self.store, &self.nodes.list, node.number)
    }

    fn open_children(&mut self, _alloc: Global, node: Node) -> Result<u32, AllocError> {
        self.opened.push(node)?;
        Ok(child_count_at(self.store, &self.nodes, node.number))
    }

    fn child(&self, node: Node, i: u32) -> Node {
        Node {
            number: child_at(self.store, &self.nodes, node.number, i),
        }
    }

    fn content_count(&self, node: Node) -> u32 {
        content_count_at(self.store, &self.nodes.list, node.number)
    }

    fn content(&self, node: Node, i: u32) -> &Text {
        content_at(self.store, &self.nodes.list, node.number, i)
    }

    fn pending(&self, node: Node) -> Option<&Key> {
        pending_at(self.store, &self.nodes.list, node.number)
    }

    fn name(&self, alloc: Global, node: Node) -> Result<Text, AllocError> {
        write_name(alloc, self.store, &self.nodes.list, node.number)
    }
}

impl<'a> TableTree for PlainTree<'a> {
    ghost stored = { λ t. t.store };

    fn table_place(&self, node: Node) -> Option<TablePlace> {
        table_place_at(self.store, &self.nodes.list, node.number)
    }
}
