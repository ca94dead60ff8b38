//! The calls of `TileTree`, by a walk and one by one.

ghost use Rattle.std.specs.Prelude.{IsTrue};
ghost use Rattle.plain_tree.specs.Standing.{standing_of};

use super::store_of;
use crate::PlainTree;
use cut_core::visited;
use doc_store::DocStore;
use error_test::View;
use expanded_tree::{Node, TileTree};
use fixed_geometry::Point;
use std::alloc::Global;
use std::process::Abort;
use std::test::Fail;

/// A view from 100 metres above.
fn view() -> Result<View, Fail> {
    let eye = Point {
        x: 0,
        y: 0,
        z: 100_000,
    };
    Ok(View::new(eye, 1080, 1, 2, 256, &[]).ok().ok_or("no view")?)
}

/// How many tiles of a store's tree the view visits.
fn visits(alloc: Global, store: &DocStore) -> Result<Option<u32>, Fail> {
    let view = view()?;
    let mut tree = PlainTree::build_whole(alloc, store)?;
    Ok(visited(alloc, &mut tree, &view).ok())
}

/// The root wants its external tileset, which isn't loaded.
#[test]
fn a_walk(rt: HostRuntime) -> Result<(), Fail> {
    let alloc = rt.alloc();
    let store = store_of(&rt, alloc, r#"{$,"content":{"uri":"u.json"}}"#)?;
    assert_eq!(rt; visits(alloc, &store)?, Some(2));
    Ok(())
}

/// The root has two contents of its own.
fn check_root(rt: &impl Abort, tree: &PlainTree<'_>, root: Node)
    requires { IsTrue ((standing_of tree.now).is_valid root) }
{
    assert_eq!(rt; tree.content_count(root), 2);
    assert_eq!(rt; tree.content(root, 1).as_str(), "http://tiles/b.glb");
}

/// The node below it waits for its document.
fn check_pending(rt: &impl Abort, tree: &PlainTree<'_>, below: Node)
    requires { IsTrue ((standing_of tree.now).is_valid below) }
{
    assert_eq!(rt; tree.content_count(below), 0);
    let address = tree.pending(below).map(|key| key.address.as_str());
    assert_eq!(rt; address, Some("http://tiles/u.json"));
}

/// The node below the root has a name, and no children.
fn check_below(
    rt: &impl Abort,
    alloc: Global,
    tree: &mut PlainTree<'_>,
    below: Node,
) -> Result<(), Fail>
    requires { IsTrue ((standing_of tree.old).is_valid below) }
{
    assert_eq!(rt; tree.name(alloc, below)?.as_str(), "r/0");
    let mut name = String::from_str(alloc, "r/1!2.3.4")?;
    tree.write_name_over(alloc, below, &mut name)?;
    assert_eq!(rt; name.as_str(), "r/0");
    check_pending(rt, tree, below);
    assert_eq!(rt; tree.open_children(alloc, below)?, 0);
    Ok(())
}

/// A step down from the root.
fn step(rt: &impl Abort, alloc: Global, tree: &mut PlainTree<'_>) -> Result<(), Fail> {
    let root = tree.top(alloc)?.ok_or("no root")?;
    check_root(rt, tree, root);
    assert_eq!(rt; tree.open_children(alloc, root)?, 1);
    let below = tree.child(root, 0);
    check_below(rt, alloc, tree, below)
}

/// A step down by the calls of `TileTree`, one by one.
#[test]
fn a_step_down(rt: HostRuntime) -> Result<(), Fail> {
    let alloc = rt.alloc();
    let tile = r#"{$,"contents":[{"uri":"a.glb"},{"uri":"u.json"},{"uri":"b.glb"}]}"#;
    let store = store_of(&rt, alloc, tile)?;
    let mut tree = PlainTree::build_whole(alloc, &store)?;
    step(&rt, alloc, &mut tree)
}
