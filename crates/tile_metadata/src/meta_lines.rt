//! The lines of the metadata of a node.

ghost use Rattle.std.specs.Prelude.{◌≡◌, ◌<◌, [], IsTrue, OnOk, length};
ghost use Rattle.std.specs.Prelude.{slice_index_or};
ghost use Rattle.doc_store.specs.Store.{docs};
ghost use Rattle.plain_tree.specs.Standing.{standing_of};
ghost use Rattle.tile_metadata.specs.Kept.{AreKept};
ghost use Rattle.tile_metadata.specs.Metadata.{lines_of};

use crate::held::Held;
use crate::open_table::{OpenTable, open_at};
use crate::schemas::Schemas;
use crate::shown::{Shown, line_count, show, write_line};
use doc_store::DocStore;
use expanded_tree::{Node, TileTree};
use plain_tree::PlainTree;
use std::alloc::{AllocError, Global};
use std::marker::Model;
use tree_nodes::TableTree;

/// The lines of one node after the other. The table of a subtree stays open while the nodes are of
/// that subtree.
#[derive(Drop)]
pub struct MetaLines<'a> {
    alloc: Global,
    store: &'a DocStore,
    tree: &'a PlainTree<'a>,
    schemas: &'a Schemas,
    current: Option<OpenTable<'a>>,
    shown: Shown,
}

impl<'a> Model for MetaLines<'a> {
    ghost use Rattle.tile_metadata.specs.Turned.{Turned};

    ghost Value = { Turned };

    ghost use Rattle.tile_metadata.specs.Shown.{lines_shown};

    ghost view = { λ l. record {
      store = l.store.now;
      tree = l.tree.now;
      schemas = l.schemas.now;
      lines = lines_shown l.current l.shown;
    } };

    ghost use Rattle.tile_metadata.specs.Turned.{IsTurned};

    ghost invariant = { λ l. IsTurned l.store.now l.tree.now l.schemas.now l.current l.shown };
}

impl<'a> MetaLines<'a> {
    /// Lines that stand at no node.
    pub fn new(
        alloc: Global,
        store: &'a DocStore,
        tree: &'a PlainTree<'a>,
        schemas: &'a Schemas,
    ) -> MetaLines<'a>
        requires stored { tree.now.store ≡ store.now }
        requires kept { AreKept store.now schemas.now }
        ensures store { result.store ≡ store.now }
        ensures tree { result.tree ≡ tree.now }
        ensures schemas { result.schemas ≡ schemas.now }
        ensures lines { result.lines ≡ [] }
    {
        MetaLines {
            alloc,
            store,
            tree,
            schemas,
            current: None,
            shown: Shown::Nothing,
        }
    }

    /// Turns to a node of the tree.
    pub fn turn_to(&mut self, node: Node) -> Result<(), AllocError>
        requires valid { IsTrue ((standing_of self.now.tree).is_valid node) }
        ensures lines { OnOk result (self.new.lines
            ≡ lines_of (docs self.old.store) ((standing_of self.old.tree).node_tree node)) }
        ensures store { self.new.store ≡ self.old.store }
        ensures tree { self.new.tree ≡ self.old.tree }
        ensures schemas { self.new.schemas ≡ self.old.schemas }
    {
        self.shown = Shown::Nothing;
        let Some(place) = self.tree.table_place(node) else {
            return Ok(());
        };
        let Some(subtree) = self.store.subtree_at(place.subtree) else {
            unreachable!()
        };
        match self.schemas.at(place.document) {
            Some(Held::Read { schema }) => {
                open_at(self.alloc, schema, subtree, place, &mut self.current)?;
                let name = self.tree.name(self.alloc, node)?;
                self.shown = show(&self.current, subtree, place.index, name);
                Ok(())
            }
            Some(Held::Refused { .. }) => Ok(()),
            Some(Held::Without) => Ok(()),

            // A document of implicit tiles is read, so that this doesn't come.
            Some(Held::Unread) => Err(AllocError),
            None => Err(AllocError),
        }
    }

    /// How many lines the node has.
    pub fn len(&self) -> usize
        ensures { result ≡ length self.now.lines }
    {
        line_count(&self.current, &self.shown)
    }

    /// Puts the line of this number, from 0, in place of what the vector held.
    pub fn write(&self, i: usize, line: &mut Vec<u8>) -> Result<(), AllocError>
        requires { i < length self.now.lines }
        ensures { OnOk result (line.new.items ≡ slice_index_or self.now.lines i []) }
    {
        write_line(&self.current, &self.shown, i, line)
    }
}
