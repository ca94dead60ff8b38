//! The schemas of the documents of a tree.

ghost use Rattle.std.specs.Prelude.{◌≡◌, All, IfErr, IfOk, IsTrue, map, option_map, slice_get};
ghost use Rattle.doc_store.specs.Store.{docs};
ghost use Rattle.plain_tree.specs.Standing.{standing_of};
ghost use Rattle.tile_metadata.specs.Kept.{AreKept, AreHeld, IsHeldOf};
ghost use Rattle.tile_metadata.specs.Metadata.{first_cause, schema_cause};
ghost use Rattle.tile_metadata.specs.Read.{AreSchemasOf, ChecksNode, RefusesSchemas};

use crate::error::SchemasError;
use crate::held::{Held, read_schema};
use doc_store::{DocStore, STORE_DOCUMENTS};
use expanded_tree::Node;
use plain_tree::PlainTree;
use std::alloc::{AllocError, Global};
use tree_nodes::TableTree;

/// The schemas of the documents of a store, each read once, by the numbers of the documents.
#[derive(Drop)]
pub struct Schemas {
    pub(crate) held: Vec<Held>,
}

impl Schemas {
    /// Reads the schemas of the documents (OGC 22-025r4, "Metadata schema"), unless that of the
    /// document of one of these nodes is refused: the first cause, in the order of the nodes, is
    /// answered.
    pub fn read(
        alloc: Global,
        store: &DocStore,
        tree: &PlainTree<'_>,
        nodes: &[Node],
    ) -> Result<Schemas, SchemasError>
        requires valid { All (λ n. IsTrue ((standing_of tree.now).is_valid n)) nodes.now }
        requires stored { tree.now.store ≡ store.now }
        ensures ok { IfOk result (λ s. AreSchemasOf (docs store.now)
            (map (standing_of tree.now).node_tree nodes.now) s) }
        ensures kept { IfOk result (AreKept store.now) }
        ensures refused { IfErr result (RefusesSchemas (first_cause (docs store.now)
            (map (standing_of tree.now).node_tree nodes.now))) }
    {
        let Ok(held) = hold_all(alloc, store) else {
            return Err(SchemasError::OutOfMemory);
        };
        let schemas = Schemas { held };
        match check_all(store, tree, &schemas, nodes) {
            Ok(()) => Ok(schemas),
            Err(error) => Err(error),
        }
    }

    /// What is read of the schema of the document of this number.
    pub(crate) fn at(&self, number: u32) -> Option<&Held>
        ensures { option_map (λ h. h.now) result ≡ slice_get self.now.held.items number }
    {
        self.held.get(number as usize)
    }
}

/// What is read of the schema of the document of a number.
fn hold(alloc: Global, store: &DocStore, number: u32) -> Result<Held, AllocError>
    ensures { IfOk result (IsHeldOf store.now number) }
{
    match store.document(number) {
        Some(document) => read_schema(alloc, document.schema()),
        None => Ok(Held::Unread),
    }
}

/// What is read of the schema of each document.
fn hold_all(alloc: Global, store: &DocStore) -> Result<Vec<Held>, AllocError>
    ensures { IfOk result (λ held. AreHeld store.now held.items) }
{
    let mut held = Vec::new(alloc);
    let mut number = 0;
    while number < STORE_DOCUMENTS && store.document_at(number).is_some() {
        held.push(hold(alloc, store, number)?)?;
        number += 1;
    }
    Ok(held)
}

/// The schema of the document of a node isn't refused.
fn check_node(
    store: &DocStore,
    tree: &PlainTree<'_>,
    schemas: &Schemas,
    node: Node,
) -> Result<(), SchemasError>
    requires valid { IsTrue ((standing_of tree.now).is_valid node) }
    requires stored { tree.now.store ≡ store.now }
    requires kept { AreKept store.now schemas.now }
    ensures { ChecksNode (schema_cause (docs store.now) ((standing_of tree.now).node_tree node)) result }
{
    let Some(place) = tree.table_place(node) else {
        return Ok(());
    };
    match schemas.at(place.document) {
        Some(Held::Refused { cause }) => Err(SchemasError::Refused { cause: *cause }),
        Some(Held::Read { .. }) => Ok(()),
        Some(Held::Without) => Ok(()),

        // A document of implicit tiles is read, so that this doesn't come.
        Some(Held::Unread) => Err(SchemasError::OutOfMemory),
        None => Err(SchemasError::OutOfMemory),
    }
}

/// None of the schemas of the documents of these nodes is refused.
fn check_all(
    store: &DocStore,
    tree: &PlainTree<'_>,
    schemas: &Schemas,
    nodes: &[Node],
) -> Result<(), SchemasError>
    requires valid { All (λ n. IsTrue ((standing_of tree.now).is_valid n)) nodes.now }
    requires stored { tree.now.store ≡ store.now }
    requires kept { AreKept store.now schemas.now }
    ensures { ChecksNode (first_cause (docs store.now)
        (map (standing_of tree.now).node_tree nodes.now)) result }
{
    let mut rest = nodes;
    while let Some((node, behind)) = rest.split_first() {
        match check_node(store, tree, schemas, *node) {
            Ok(()) => {}
            Err(error) => return Err(error),
        }
        rest = behind;
    }
    Ok(())
}
