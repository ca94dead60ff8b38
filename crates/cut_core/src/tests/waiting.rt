//! A root above nodes that wait for documents.

ghost use Rattle.std.specs.Prelude.{◌≡◌, ◌-◌, ◌==◌, ◌<◌, ◌^◌, ◌∷◌, [], None, Some, IsTrue, map};
ghost use Rattle.std.specs.Prelude.{false, nat_le, slice_get, if◌then◌else◌, vec_len};
ghost use Rattle.std.specs.Option.{option_map, unwrap_or};
ghost use Rattle.tile_types.specs.declared.refine.Refine.TheVariants.{Replace};
ghost use Rattle.expanded_tree.specs.Tree.{Tree, explicit_tile, from_list, pending};
ghost use Rattle.tile_types.specs.declared.key.Key as keys;

use crate::tests::fan::FanTile;
use crate::{Node, NodeFacts, TileTree};
use std::alloc::{AllocError, Global};
use tile_types::{Key, Refine, Text};

/// A root, number 0, and its children, from 1 on, which wait for these keys and have no volume.
#[derive(Drop)]
pub struct Waiting {
    root: FanTile,
    keys: Vec<Key>,
    opened: Vec<Node>,
    ghost few: { vec_len keys < 2 ^ 32 },
}

impl Waiting {
    /// The tree of this root and these keys, or None where they are too many.
    pub fn new(alloc: Global, root: FanTile, keys: Vec<Key>) -> Option<Waiting> {
        if keys.len() > 1_000_000 {
            return None;
        }
        Some(Waiting {
            root,
            keys,
            opened: Vec::new(alloc),
        })
    }
}

impl TileTree for Waiting {
    ghost use Rattle.std.specs.Prelude.{ℕ};

    ghost Basis = { ℕ };

    ghost basis = { λ t. vec_len t.keys };

    ghost standing = { λ t.
        let leaf : keys.Key → Tree = λ k. pending []
        (record { volume = None; request = None; error = 9; refine = Replace; external = false }) k in
        let root = explicit_tile t.root.name t.root.facts (t.root.address ∷ [])
        (from_list (map leaf t.keys.items)) in
        record {
          tree = Some root;
          node_tree = λ n. if n.number == 0 then root
              else unwrap_or (option_map leaf (slice_get t.keys.items (n.number - 1))) root;
          is_valid = λ n. nat_le n.number (vec_len t.keys);
          at_hand = λ n. nat_le n.number (vec_len t.keys);
          opened = t.opened.items;
        } };

    fn top(&mut self, _alloc: Global) -> Result<Option<Node>, AllocError> {
        self.opened.clear();
        Ok(Some(Node { number: 0 }))
    }

    fn facts(&self, node: Node) -> NodeFacts {
        if node.number == 0 {
            return self.root.facts;
        }
        NodeFacts {
            volume: None,
            request: None,
            error: 9,
            refine: Refine::Replace,
            external: false,
        }
    }

    fn open_children(&mut self, _alloc: Global, node: Node) -> Result<u32, AllocError> {
        self.opened.push(node)?;
        if node.number == 0 {
            return Ok(self.keys.len() as u32);
        }
        Ok(0)
    }

    fn child(&self, _node: Node, i: u32) -> Node {
        Node {
            number: u64::from(i) + 1,
        }
    }

    fn content_count(&self, node: Node) -> u32 {
        if node.number == 0 { 1 } else { 0 }
    }

    fn content(&self, _node: Node, _i: u32) -> &Text {
        &self.root.address
    }

    fn pending(&self, node: Node) -> Option<&Key> {
        if node.number == 0 {
            return None;
        }
        Some(&self.keys[(node.number - 1) as usize])
    }

    fn name(&self, alloc: Global, node: Node) -> Result<Text, AllocError> {
        if node.number == 0 {
            return self.root.name.copy(alloc);
        }
        Text::new(alloc, "")
    }
}
