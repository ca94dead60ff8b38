//! The trait of the trees that a walk can go down.

ghost use Rattle.std.specs.Prelude.{◌≡◌, ◌<◌, ◌++◌, ◌∷◌, [], IfOk, IsTrue, OnErr, OnOk, Some};
ghost use Rattle.std.specs.Prelude.{length, option_map, slice_get};
ghost use Rattle.expanded_tree.specs.Standing.{IsRoot, Keeps, Standing};
ghost use Rattle.expanded_tree.specs.Tree.{children_of, addresses_of, facts_of, key_of, name_of};

use crate::node::{Node, NodeFacts};
use std::alloc::{AllocError, Global};
use tile_types::{Key, Text};

/// A tile tree whose nodes may be made as they are opened.
///
/// Contracts see what it stands for: the tree, the tree of each valid node, which nodes are valid,
/// which have their children at hand, and which were opened since the last `top`, in order. Each
/// call on a node asks that the node is valid. No call gives a tile's origin: it is for what is
/// read off the tree.
///
/// Contracts also see the tree's basis, plain data that each kind of tree names and that no call
/// changes. That of a tree that is made from documents as they are loaded is its store of
/// documents: so a walk is known to lose nothing of what is loaded, which the tree alone doesn't
/// tell.
pub trait TileTree {
    ghost Basis: { Type 0 };

    ghost basis: { Self → Basis };

    ghost standing: { Self → Standing };

    /// The root, or None where the tree is empty. It may end that other nodes are valid or have
    /// their children at hand, and from then on no node is opened, whatever it answers.
    fn top(&mut self, alloc: Global) -> Result<Option<Node>, AllocError>
        ensures basis { basis self.new ≡ basis self.old }
        ensures tree { (standing self.new).tree ≡ (standing self.old).tree }
        ensures root { IfOk result (λ top. IsRoot (standing self.new) top) }
        ensures opened { (standing self.new).opened ≡ [] };

    /// What is known of the node.
    fn facts(&self, node: Node) -> NodeFacts
        requires { IsTrue ((standing self.now).is_valid node) }
        ensures { result ≡ facts_of ((standing self.now).node_tree node) };

    /// Opens the node, so that its children are at hand, and answers how many it has: 0 for a
    /// pending one.
    fn open_children(&mut self, alloc: Global, node: Node) -> Result<u32, AllocError>
        requires { IsTrue ((standing self.old).is_valid node) }
        ensures basis { basis self.new ≡ basis self.old }
        ensures keeps { Keeps (standing self.old) (standing self.new) }
        ensures count { IfOk result (λ n. n ≡ length
            (children_of ((standing self.old).node_tree node))) }
        ensures at_hand { OnOk result (IsTrue ((standing self.new).at_hand node)) }
        ensures opened { OnOk result ((standing self.new).opened
            ≡ (standing self.old).opened ++ node ∷ []) }
        ensures err { OnErr result ((standing self.new).opened ≡ (standing self.old).opened) };

    /// The node's child `i`, from 0, of a node whose children are at hand.
    fn child(&self, node: Node, i: u32) -> Node
        requires valid { IsTrue ((standing self.now).is_valid node) }
        requires at_hand { IsTrue ((standing self.now).at_hand node) }
        requires within { i < length (children_of ((standing self.now).node_tree node)) }
        ensures valid { IsTrue ((standing self.now).is_valid result) }
        ensures tree { slice_get (children_of ((standing self.now).node_tree node)) i
            ≡ Some ((standing self.now).node_tree result) };

    /// How many own contents the node has.
    fn content_count(&self, node: Node) -> u32
        requires { IsTrue ((standing self.now).is_valid node) }
        ensures { result ≡ length (addresses_of ((standing self.now).node_tree node)) };

    /// The address of the node's content `i`, from 0.
    fn content(&self, node: Node, i: u32) -> &Text
        requires valid { IsTrue ((standing self.now).is_valid node) }
        requires within { i < length (addresses_of ((standing self.now).node_tree node)) }
        ensures { slice_get (addresses_of ((standing self.now).node_tree node)) i
            ≡ Some result.now };

    /// The key of the document that the node waits for, or None where it is a tile.
    fn pending(&self, node: Node) -> Option<&Key>
        requires { IsTrue ((standing self.now).is_valid node) }
        ensures { option_map (λ key. key.now) result
            ≡ key_of ((standing self.now).node_tree node) };

    /// The node's name.
    fn name(&self, alloc: Global, node: Node) -> Result<Text, AllocError>
        requires { IsTrue ((standing self.now).is_valid node) }
        ensures { IfOk result (λ name. name ≡ name_of ((standing self.now).node_tree node)) };
}
