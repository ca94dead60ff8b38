//! A line for each node of a tree, and the trees of one document.

ghost use Rattle.std.specs.Prelude.{All, IsTrue};
ghost use Rattle.plain_tree.specs.Standing.{standing_of};

use super::{Further, store_with};
use crate::PlainTree;
use doc_store::DocStore;
use expanded_tree::{Node, NodeFacts, TileTree};
use std::alloc::{AllocError, Global};
use std::process::Abort;
use std::test::Fail;

/// A root tile, the further documents, and the lines of the tree.
pub(super) type Row = (&'static str, &'static [Further], &'static str);

/// The error of a node in micrometres, how it is refined, and whether its volume is known.
fn write_facts(alloc: Global, facts: &NodeFacts, text: &mut String) -> Result<(), AllocError> {
    let start = format!(in alloc; " {} {:?}", facts.error, facts.refine)?;
    text.push_str(start.as_str())?;
    text.push_str(if facts.external { " external" } else { "" })?;
    text.push_str(if facts.volume.is_none() {
        " nowhere"
    } else {
        ""
    })
}

/// The own contents of a node.
fn write_contents(tree: &PlainTree<'_>, node: Node, text: &mut String) -> Result<(), AllocError>
    requires { IsTrue ((standing_of tree.now).is_valid node) }
{
    for i in 0..tree.content_count(node) {
        text.push(' ')?;
        text.push_str(tree.content(node, i).as_str())?;
    }
    Ok(())
}

/// The address that a node waits for.
fn write_pending(tree: &PlainTree<'_>, node: Node, text: &mut String) -> Result<(), AllocError>
    requires { IsTrue ((standing_of tree.now).is_valid node) }
{
    if let Some(key) = tree.pending(node) {
        text.push_str(" waits ")?;
        text.push_str(key.address.as_str())?;
    }
    text.push('\n')
}

/// A line for a node: its name, its error in micrometres, how it is refined, whether its volume is
/// known, its own contents, and the address that it waits for.
fn write_line(
    alloc: Global,
    tree: &PlainTree<'_>,
    node: Node,
    text: &mut String,
) -> Result<(), AllocError>
    requires { IsTrue ((standing_of tree.now).is_valid node) }
{
    text.push_str(tree.name(alloc, node)?.as_str())?;
    write_facts(alloc, &tree.facts(node), text)?;
    write_contents(tree, node, text)?;
    write_pending(tree, node, text)
}

/// The lines of all nodes.
fn lines(alloc: Global, tree: &PlainTree<'_>, nodes: &[Node]) -> Result<String, AllocError>
    requires { All (λ n. IsTrue ((standing_of tree.now).is_valid n)) nodes.now }
{
    let mut text = String::new(alloc);
    for node in nodes {
        write_line(alloc, tree, *node, &mut text)?;
    }
    Ok(text)
}

/// The lines of the tree of a store in preorder.
pub(super) fn tree_lines(alloc: Global, store: &DocStore) -> Result<String, AllocError> {
    let tree = PlainTree::build_whole(alloc, store)?;
    let nodes = tree.preorder(alloc)?;
    lines(alloc, &tree, nodes.as_slice())
}

/// Compares the lines of a tree.
fn check_row(rt: &impl Abort, alloc: Global, row: &Row) -> Result<(), Fail> {
    let (tile, further, wanted) = row;
    let store = store_with(rt, alloc, tile, further)?;
    assert_eq!(rt; tree_lines(alloc, &store)?.as_str(), *wanted, "of {tile}");
    Ok(())
}

/// Compares the lines of each tree.
pub(super) fn check_lines(rt: &impl Abort, alloc: Global, rows: &[Row]) -> Result<(), Fail> {
    for row in rows {
        check_row(rt, alloc, row)?;
    }
    Ok(())
}

/// Root tiles of one document, and the lines of their trees.
static ALONE: [Row; 7] = [
    ("{$}", &[], "r 1000000 Replace\n"),
    (
        r#"{$,"refine":"ADD","children":[{$},{$,"refine":"REPLACE"}]}"#,
        &[],
        "r 1000000 Add\nr/0 1000000 Add\nr/1 1000000 Replace\n",
    ),
    (
        r#"{$,"children":[{$,"children":[{$}]},{$,"content":{"uri":"a.glb"}}]}"#,
        &[],
        "r 1000000 Replace\n\
        r/0 1000000 Replace\n\
        r/0/0 1000000 Replace\n\
        r/1 1000000 Replace http://tiles/a.glb\n",
    ),
    (
        r#"{$,"content":{"uri":"u.json"}}"#,
        &[],
        "r 1000000 Replace external\nr/0 1000000 Replace nowhere waits http://tiles/u.json\n",
    ),
    // What isn't loaded has its holder's refinement, and its holder's error, which the transform
    // stretches.
    (
        r#"{$,"refine":"ADD","transform":[2,0,0,0,0,2,0,0,0,0,2,0,0,0,0,1],
            "content":{"uri":"u.json"}}"#,
        &[],
        "r 2000000 Add external\nr/0 2000000 Add nowhere waits http://tiles/u.json\n",
    ),
    // A tile stands before its children, and these before its next sibling.
    (
        r#"{$,"children":[{$,"children":[{$},{$,"children":[{$}]}]},{$,"children":[{$}]}]}"#,
        &[],
        "r 1000000 Replace\n\
        r/0 1000000 Replace\n\
        r/0/0 1000000 Replace\n\
        r/0/1 1000000 Replace\n\
        r/0/1/0 1000000 Replace\n\
        r/1 1000000 Replace\n\
        r/1/0 1000000 Replace\n",
    ),
    // Numbers are decimal, and have no leading zeros.
    (
        r#"{$,"children":[{$},{$},{$},{$},{$},{$},{$},{$},{$},{$},{$,"children":[{$}]}]}"#,
        &[],
        "r 1000000 Replace\n\
        r/0 1000000 Replace\n\
        r/1 1000000 Replace\n\
        r/2 1000000 Replace\n\
        r/3 1000000 Replace\n\
        r/4 1000000 Replace\n\
        r/5 1000000 Replace\n\
        r/6 1000000 Replace\n\
        r/7 1000000 Replace\n\
        r/8 1000000 Replace\n\
        r/9 1000000 Replace\n\
        r/10 1000000 Replace\n\
        r/10/0 1000000 Replace\n",
    ),
];

#[test]
fn trees_of_one_document(rt: HostRuntime) -> Result<(), Fail> {
    check_lines(&rt, rt.alloc(), &ALONE)
}
