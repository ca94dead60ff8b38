//! How many nodes a tree may have.

use super::{Further, store_with};
use crate::{PlainError, PlainTree};
use doc_store::DocStore;
use std::alloc::Global;
use std::process::Abort;
use std::test::Fail;

/// A root tile, the further documents, and how many nodes the tree has, or why there is none.
type Row = (&'static str, &'static [Further], Result<usize, PlainError>);

/// How many nodes the tree of a store has.
pub(super) fn size(alloc: Global, store: &DocStore) -> Result<usize, PlainError> {
    match PlainTree::build(alloc, store) {
        Err(e) => Err(e),
        Ok(tree) => match tree.preorder(alloc) {
            Err(_) => Err(PlainError::OutOfMemory),
            Ok(nodes) => Ok(nodes.len()),
        },
    }
}

fn check_size(rt: &impl Abort, alloc: Global, row: &Row) -> Result<(), Fail> {
    let (tile, further, wanted) = row;
    let store = store_with(rt, alloc, tile, further)?;
    assert_eq!(rt; size(alloc, &store), *wanted, "of {tile}");
    Ok(())
}

/// Documents that are their own external tilesets, twice and three times.
static LARGE: [Row; 2] = [
    (
        r#"{$,"contents":[{"uri":"t.json"},{"uri":"t.json"}]}"#,
        &[],
        Ok(131_071),
    ),
    (
        r#"{$,"contents":[{"uri":"t.json"},{"uri":"t.json"},{"uri":"t.json"}]}"#,
        &[],
        Err(PlainError::TooLarge),
    ),
];

#[test]
fn large_trees(rt: HostRuntime) -> Result<(), Fail> {
    for row in LARGE.iter() {
        check_size(&rt, rt.alloc(), row)?;
    }
    Ok(())
}

/// The document below the roots of the next two trees. It has 8 tiles.
const BELOW: [Further; 1] = [(
    "http://tiles/u.json",
    Some(
        r#"{$,"contents":[{"uri":"u.json"},{"uri":"u.json"}],
        "children":[{$},{$},{$},{$},{$},{$},{$}]}"#,
    ),
)];

/// A tree of as many nodes as there may be, and one of one node more. Below the root stand two
/// tilesets that are each other's and their own external tilesets twice: 131,070 of them, 16 deep.
/// Each has 8 tiles, and the root's document 16 tiles, or 17.
static FULL: [Row; 2] = [
    (
        r#"{$,"contents":[{"uri":"u.json"},{"uri":"u.json"}],
            "children":[{$},{$},{$},{$},{$},{$},{$},{$},{$},{$},{$},{$},{$},{$},{$}]}"#,
        &BELOW,
        Ok(1_048_576),
    ),
    (
        r#"{$,"contents":[{"uri":"u.json"},{"uri":"u.json"}],
            "children":[{$},{$},{$},{$},{$},{$},{$},{$},{$},{$},{$},{$},{$},{$},{$},{$}]}"#,
        &BELOW,
        Err(PlainError::TooLarge),
    ),
];

#[test]
fn as_many_nodes_as_there_may_be(rt: HostRuntime) -> Result<(), Fail> {
    for row in FULL.iter() {
        check_size(&rt, rt.alloc(), row)?;
    }
    Ok(())
}
