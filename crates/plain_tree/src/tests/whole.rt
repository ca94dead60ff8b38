//! Whether a tree is whole.

use super::{Further, store_with};
use crate::PlainTree;
use doc_store::DocStore;
use std::alloc::{AllocError, Global};
use std::process::Abort;
use std::test::Fail;

/// A root tile, the further documents, and whether no node of the tree waits.
type Row = (&'static str, &'static [Further], bool);

/// Whether no node of the tree of a store waits.
fn is_whole(alloc: Global, store: &DocStore) -> Result<bool, AllocError> {
    Ok(PlainTree::build_whole(alloc, store)?.is_whole())
}

fn check_row(rt: &impl Abort, alloc: Global, row: &Row) -> Result<(), Fail> {
    let (tile, further, whole) = row;
    let store = store_with(rt, alloc, tile, further)?;
    assert_eq!(rt; is_whole(alloc, &store)?, *whole, "of {tile}");
    Ok(())
}

static WHOLE: [Row; 5] = [
    ("{$}", &[], true),
    (r#"{$,"content":{"uri":"a.glb"}}"#, &[], true),
    (r#"{$,"content":{"uri":"t.json"}}"#, &[], true),
    (
        r#"{$,"children":[{$},{$,"content":{"uri":"u.json"}}]}"#,
        &[],
        false,
    ),
    // Nothing waits for an external tileset that is absent.
    (
        r#"{$,"content":{"uri":"u.json"}}"#,
        &[("http://tiles/u.json", None)],
        true,
    ),
];

#[test]
fn whole_trees(rt: HostRuntime) -> Result<(), Fail> {
    for row in WHOLE.iter() {
        check_row(&rt, rt.alloc(), row)?;
    }
    Ok(())
}
