//! The nodes that were made since the last `top`.

ghost use Rattle.std.specs.Prelude.{◌≡◌, ◌<◌, ◌+◌, ◌++◌, ◌∷◌, [], if◌then◌else◌, IfOk, IsTrue, OnErr, OnOk};
ghost use Rattle.std.specs.Prelude.{Some, length, slice_get};
ghost use Rattle.expanded_tree.specs.Standing.{Keeps};
ghost use Rattle.expanded_tree.specs.Tree.{children_of};
ghost use Rattle.tree_nodes.specs.Nodes.{HasIdentity};
ghost use Rattle.tree_nodes.specs.TreeIn.{tree_in};
ghost use Rattle.tile_arena.specs.Children.{is_at_hand};
ghost use Rattle.tile_arena.specs.Standing.{HasRoot, IsEmptied, IsHeld, standing_in, trees_of};

use crate::children::{Children, make_room};
use doc_store::DocStore;
use expanded_tree::Node;
use std::alloc::{AllocError, Global};
use tree_nodes::NodeList;

/// The nodes that were made since the last `top`, and which of them were opened.
#[derive(Drop)]
pub(crate) struct Held {
    pub(crate) list: NodeList,
    /// Where the children of each node stand. It may end before the last node, and those behind it
    /// weren't opened.
    pub(crate) children: Vec<Children>,
    pub(crate) opened: Vec<Node>,
}

impl Held {
    /// No node.
    pub(crate) fn new(alloc: Global) -> Result<Held, AllocError>
        ensures { IfOk result IsEmptied }
    {
        Ok(Held {
            list: NodeList::new(alloc)?,
            children: Vec::new(alloc),
            opened: Vec::new(alloc),
        })
    }

    /// Lets all nodes go, and keeps their memory for others.
    pub(crate) fn clear(&mut self)
        requires { HasIdentity self.old.list }
        ensures { IsEmptied self.new }
    {
        self.list.clear();
        self.children.clear();
        self.opened.clear();
    }

    /// Makes the root of a store's tree in place of all nodes, and answers whether there is one.
    pub(crate) fn make_root(&mut self, alloc: Global, store: &DocStore) -> Result<bool, AllocError>
        requires { HasIdentity self.old.list }
        ensures root { IfOk result (λ some. HasRoot store.now self.new some) }
        ensures err { OnErr result (IsEmptied self.new) }
    {
        self.clear();
        match self.list.push_root(alloc, store, None) {
            Err(_) => Err(AllocError),
            Ok(()) => Ok(self.list.nodes.len() > 0),
        }
    }

    /// Opens a node, and answers how many children it has. Those of a node that was opened before
    /// are at hand, and aren't made once more.
    pub(crate) fn open(
        &mut self,
        alloc: Global,
        store: &DocStore,
        node: Node,
    ) -> Result<u32, AllocError>
        requires held { IsHeld store.now self.old }
        requires valid { node.number < length self.old.list.nodes.items }
        ensures held { IsHeld store.now self.new }
        ensures keeps { Keeps (standing_in store.now self.old) (standing_in store.now self.new) }
        ensures count { IfOk result (λ n. n ≡ length
            (children_of (tree_in (trees_of store.now self.old) node.number))) }
        ensures at_hand { OnOk result (IsTrue (is_at_hand self.new.children.items node.number)) }
        ensures opened { OnOk result (self.new.opened.items ≡ self.old.opened.items ++ node ∷ []) }
        ensures kept { IfOk result (λ n. length self.new.list.nodes.items
            ≡ length self.old.list.nodes.items
            + (if is_at_hand self.old.children.items node.number then 0 else n)) }
        ensures none_opened { OnErr result (self.new.opened.items ≡ self.old.opened.items) }
        ensures none_kept { OnErr result (length self.new.list.nodes.items
            ≡ length self.old.list.nodes.items) }
    {
        self.opened.reserve(1)?;
        let place = node.number as usize;
        make_room(&mut self.children, place)?;
        let known = self.children[place];
        if known.at_hand {
            self.opened.push_reserved(node);
            return Ok(known.count);
        }
        let first = self.list.nodes.len();
        // No memory holds so many nodes: so their places are below 2^32.
        if first > u32::MAX as usize {
            return Err(AllocError);
        }
        self.list.open_children(alloc, store, node.number)?;
        let count = (self.list.nodes.len() - first) as u32;
        self.children[place] = Children {
            at_hand: true,
            first: first as u32,
            count,
        };
        self.opened.push_reserved(node);
        Ok(count)
    }

    /// The place of the child `i` of the node at a place, whose children are at hand.
    pub(crate) fn child_at(&self, _store: &DocStore, place: u64, i: u32) -> u64
        requires held { IsHeld _store.now self.now }
        requires at_hand { IsTrue (is_at_hand self.now.children.items place) }
        requires within { i < length (children_of (tree_in (trees_of _store.now self.now) place)) }
        ensures within { result < length self.now.list.nodes.items }
        ensures tree { slice_get (children_of (tree_in (trees_of _store.now self.now) place)) i
            ≡ Some (tree_in (trees_of _store.now self.now) result) }
    {
        u64::from(self.children[place as usize].first) + u64::from(i)
    }
}
