//! A tree of two levels.

ghost use Rattle.std.specs.Prelude.{◌≡◌, ◌-◌, ◌==◌, ◌<◌, ◌^◌, ◌∷◌, []};
ghost use Rattle.std.specs.Prelude.{Some, IsTrue, length, map, nat_le, slice_get, if◌then◌else◌, vec_len};
ghost use Rattle.std.specs.Option.{option_map, unwrap_or};
ghost use Rattle.expanded_tree.specs.Tree.{explicit_tile, from_list, no_trees};

use expanded_tree::{Node, NodeFacts, TileTree};
use lists::List;
use std::alloc::{AllocError, Global};
use tile_types::{Key, Text};

/// A tile with these contents.
#[derive(Drop)]
pub struct FanTile {
    pub facts: NodeFacts,
    contents: List<Text>,
    ghost short: { length contents < 2 ^ 32 },
}

impl FanTile {
    /// A tile with the contents of these addresses, which stand between spaces, or None where they
    /// are too many.
    pub fn new(
        alloc: Global,
        facts: NodeFacts,
        addresses: &str,
    ) -> Result<Option<FanTile>, AllocError> {
        let mut contents = List::new(alloc);
        for word in addresses.split(' ') {
            contents.push(Text::new(alloc, word)?)?;
        }
        if contents.len() > 100 {
            return Ok(None);
        }
        Ok(Some(FanTile { facts, contents }))
    }
}

/// A root, number 0, and its children, from 1 on.
#[derive(Drop)]
pub struct Fan {
    root: FanTile,
    children: Vec<FanTile>,
    opened: Vec<Node>,
    ghost few: { vec_len children < 2 ^ 32 },
}

impl Fan {
    /// The tree of these tiles, or None where they are too many.
    pub fn new(alloc: Global, root: FanTile, children: Vec<FanTile>) -> Option<Fan> {
        if children.len() > 1_000_000 {
            return None;
        }
        Some(Fan {
            root,
            children,
            opened: Vec::new(alloc),
        })
    }
}

impl TileTree for Fan {
    ghost use Rattle.std.specs.Prelude.{ℕ};

    ghost Basis = { ℕ };

    ghost basis = { λ t. vec_len t.children };

    ghost standing = { λ t.
        let root = explicit_tile [] t.root.facts t.root.contents
        (from_list (map (λ c. explicit_tile [] c.facts c.contents no_trees)
        t.children.items)) in
        record {
          tree = Some root;
          node_tree = λ n. if n.number == 0 then root
              else unwrap_or (option_map (λ c. explicit_tile [] c.facts c.contents
              no_trees)
              (slice_get t.children.items (n.number - 1))) root;
          is_valid = λ n. nat_le n.number (vec_len t.children);
          at_hand = λ n. nat_le n.number (vec_len t.children);
          opened = t.opened.items;
        } };

    fn top(&mut self, _alloc: Global) -> Result<Option<Node>, AllocError> {
        self.opened.clear();
        Ok(Some(Node { number: 0 }))
    }

    fn facts(&self, node: Node) -> NodeFacts {
        if node.number == 0 {
            return self.root.facts;
        }
        self.children[(node.number - 1) as usize].facts
    }

    fn open_children(&mut self, _alloc: Global, node: Node) -> Result<u32, AllocError> {
        self.opened.push(node)?;
        if node.number == 0 {
            return Ok(self.children.len() as u32);
        }
        Ok(0)
    }

    fn child(&self, _node: Node, i: u32) -> Node {
        Node {
            number: u64::from(i) + 1,
        }
    }

    fn content_count(&self, node: Node) -> u32 {
        if node.number == 0 {
            return self.root.contents.len() as u32;
        }
        self.children[(node.number - 1) as usize].contents.len() as u32
    }

    fn content(&self, node: Node, i: u32) -> &Text {
        if node.number == 0 {
            return &self.root.contents.as_slice()[i as usize];
        }
        &self.children[(node.number - 1) as usize]
            .contents
            .as_slice()[i as usize]
    }

    fn pending(&self, _node: Node) -> Option<&Key> {
        None
    }

    fn name(&self, alloc: Global, _node: Node) -> Result<Text, AllocError> {
        Text::new(alloc, "")
    }
}
