//! The arena.

ghost use Rattle.std.specs.Prelude.{◌≡◌, ◌≢◌, ◌↔◌, ◌≤◌, ◌<◌, ◌+◌, ◌++◌, ◌∷◌, [], if◌then◌else◌};
ghost use Rattle.std.specs.Prelude.{IfOk, IsOk, IsTrue, Ok, OnErr, OnOk, is_some, length};
ghost use Rattle.doc_store.specs.Docs.{is_unread};
ghost use Rattle.doc_store.specs.Store.{IsDocumentKind, IsFull, docs, with_document};
ghost use Rattle.doc_store.specs.declared.limits.TheConstants.{DOCUMENT_LIMIT};
ghost use Rattle.expanded_tree.specs.Standing.{IsRoot, Keeps, StandIn};
ghost use Rattle.expanded_tree.specs.Tree.{children_of};
ghost use Rattle.error_test.specs.Views.{ViewParts};
ghost use Rattle.cut_core.specs.Visits.{to_open, visits};
ghost use Rattle.tile_arena.specs.Children.{child_count};
ghost use Rattle.tile_arena.specs.Standing.{HoldsNothing, has_children_at_hand, kept_in, standing_of};

use crate::held::Held;
use bytes::Bytes;
use doc_store::{Added, DocStore};
use expanded_tree::{Node, NodeFacts, TileTree};
use std::alloc::{AllocError, Global};
use std::marker::Model;
use tile_types::{Key, Text};
use tree_nodes::{
    TablePlace, TableTree, content_at, content_count_at, facts_at, pending_at, table_place_at,
    write_name,
};

/// The expanded tree of its store's documents (OGC 22-025r4, "External tilesets" and "Implicit
/// Tiling"), of which only the root and the children of opened nodes are held. Nodes are valid
/// until the next `top`, `add` or `mark_absent`.
#[derive(Drop)]
pub struct Arena {
    store: DocStore,
    held: Held,
}

impl Model for Arena {
    ghost use Rattle.tile_arena.specs.Standing.{ArenaParts};

    ghost Value = { ArenaParts };

    ghost use Rattle.tile_arena.specs.Standing.{IsHeld};

    ghost view = { λ a. record { store = a.store; held = a.held } };

    ghost invariant = { λ a. IsHeld a.store a.held };
}

impl Arena {
    /// The arena of a store, without a node.
    pub fn new(alloc: Global, store: DocStore) -> Result<Arena, AllocError>
        ensures store { IfOk result (λ arena. arena.store ≡ store) }
        ensures nothing { IfOk result HoldsNothing }
    {
        Ok(Arena {
            store,
            held: Held::new(alloc)?,
        })
    }

    /// The documents, without the arena.
    pub fn into_store(self) -> DocStore
        ensures { result ≡ self.store }
    {
        self.store
    }

    /// The documents.
    pub fn store(&self) -> &DocStore
        ensures { result.now ≡ self.now.store }
    {
        &self.store
    }

    /// How many nodes are held. It takes no memory.
    pub fn kept(&self) -> u64
        ensures { result ≡ kept_in self.now }
    {
        self.held.list.nodes.len() as u64
    }

    /// Adds the bytes of a tileset or a subtree, whether they are read or refused, unless the store
    /// is full, as the store does. But for want of memory it lets all nodes go. Want of memory
    /// changes nothing.
    pub fn add(&mut self, alloc: Global, key: Key, bytes: Bytes) -> Result<Added, AllocError>
        requires document { IsDocumentKind key.kind }
        requires unread { IsTrue (is_unread (docs self.old.store) key) }
        requires within { length bytes ≤ DOCUMENT_LIMIT }
        ensures kept { result ≡ Ok Added.Kept
            → self.new.store ≡ with_document self.old.store key bytes }
        ensures full { (result ≡ Ok Added.Full) ↔ IsFull self.old.store (length bytes) }
        ensures unchanged { result ≢ Ok Added.Kept → self.new.store ≡ self.old.store }
        ensures nothing { OnOk result (HoldsNothing self.new) }
        ensures err { OnErr result (self.new ≡ self.old) }
    {
        let added = self.store.add(alloc, key, bytes)?;
        self.held.clear();
        Ok(added)
    }

    /// Takes memory for so many more absent keys, so that marking them takes none.
    pub fn reserve(&mut self, more: u32) -> Result<(), AllocError>
        ensures loaded { self.new.store.loaded ≡ self.old.store.loaded }
        ensures gone { self.new.store.gone ≡ self.old.store.gone }
        ensures room { OnOk result (more ≤ self.new.store.spare) }
        ensures never_falls { self.old.store.spare ≤ self.new.store.spare }
        ensures succeeds { more ≤ self.old.store.spare → IsOk result }
        ensures held { self.new.held ≡ self.old.held }
    {
        self.store.reserve(more)
    }

    /// Marks a document's key as absent, and lets all nodes go. It takes no memory.
    pub fn mark_absent(&mut self, key: Key)
        requires room { 0 < self.old.store.spare }
        requires document { IsDocumentKind key.kind }
        requires unread { IsTrue (is_unread (docs self.old.store) key) }
        ensures gone { self.new.store.gone ≡ self.old.store.gone ++ key ∷ [] }
        ensures loaded { self.new.store.loaded ≡ self.old.store.loaded }
        ensures room { self.old.store.spare ≤ self.new.store.spare + 1 }
        ensures nothing { HoldsNothing self.new }
    {
        self.store.mark_absent(key);
        self.held.clear();
    }

    /// Behind a walk at most the root and the children of visited nodes are held: the premise is
    /// what each walk of `cut_core` says of the nodes that it opened, whatever it answers. It does
    /// nothing: its contract is the law.
    pub fn holds_children_of_visited_nodes_alone(&self)
        ensures { (view : ViewParts)
            → StandIn (standing_of self.now) (standing_of self.now).opened
            (to_open view (visits view (standing_of self.now).tree))
            → kept_in self.now ≤ 1 + child_count (visits view (standing_of self.now).tree) }
    {
        let _ = &self.held;
    }
}

impl TileTree for Arena {
    ghost use Rattle.doc_store.specs.Store.{Stored};

    ghost Basis = { Stored };

    ghost basis = { λ a. a.store };

    ghost standing = { standing_of };

    fn top(&mut self, alloc: Global) -> Result<Option<Node>, AllocError>
        ensures basis { self.new.store ≡ self.old.store }
        ensures tree { (standing_of self.new).tree ≡ (standing_of self.old).tree }
        ensures root { IfOk result (λ top. IsRoot (standing_of self.new) top) }
        ensures opened { (standing_of self.new).opened ≡ [] }

        // The root is held alone, if there is one, and nothing where memory is refused.
        ensures kept { IfOk result (λ top. kept_in self.new ≡ (if is_some top then 1 else 0)) }
        ensures err { OnErr result (kept_in self.new ≡ 0) }
    {
        if self.held.make_root(alloc, &self.store)? {
            return Ok(Some(Node { number: 0 }));
        }
        Ok(None)
    }

    fn facts(&self, node: Node) -> NodeFacts {
        facts_at(&self.store, &self.held.list, node.number)
    }

    fn open_children(&mut self, alloc: Global, node: Node) -> Result<u32, AllocError>
        requires { IsTrue ((standing_of self.old).is_valid node) }
        ensures basis { self.new.store ≡ self.old.store }
        ensures keeps { Keeps (standing_of self.old) (standing_of self.new) }
        ensures count { IfOk result (λ n. n ≡ length
            (children_of ((standing_of self.old).node_tree node))) }
        ensures at_hand { OnOk result (IsTrue ((standing_of self.new).at_hand node)) }
        ensures opened { OnOk result ((standing_of self.new).opened
            ≡ (standing_of self.old).opened ++ node ∷ []) }
        ensures err { OnErr result ((standing_of self.new).opened
            ≡ (standing_of self.old).opened) }

        // As many more nodes are held as the node has children, unless it was opened before.
        ensures kept { IfOk result (λ n. kept_in self.new ≡ kept_in self.old
            + (if has_children_at_hand self.old node then 0 else n)) }
        ensures none_kept { OnErr result (kept_in self.new ≡ kept_in self.old) }
    {
        self.held.open(alloc, &self.store, node)
    }

    fn child(&self, node: Node, i: u32) -> Node {
        Node {
            number: self.held.child_at(&self.store, node.number, i),
        }
    }

    fn content_count(&self, node: Node) -> u32 {
        content_count_at(&self.store, &self.held.list, node.number)
    }

    fn content(&self, node: Node, i: u32) -> &Text {
        content_at(&self.store, &self.held.list, node.number, i)
    }

    fn pending(&self, node: Node) -> Option<&Key> {
        pending_at(&self.store, &self.held.list, node.number)
    }

    fn name(&self, alloc: Global, node: Node) -> Result<Text, AllocError> {
        write_name(alloc, &self.store, &self.held.list, node.number)
    }
}

impl TableTree for Arena {
    ghost stored = { λ a. a.store };

    fn table_place(&self, node: Node) -> Option<TablePlace> {
        table_place_at(&self.store, &self.held.list, node.number)
    }
}
