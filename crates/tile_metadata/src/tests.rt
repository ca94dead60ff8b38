//! The lines of metadata. What is expected is worked out by hand from the bytes.

mod stores;

ghost use Rattle.std.specs.Prelude.{◌≡◌, All, IsTrue};
ghost use Rattle.plain_tree.specs.Standing.{standing_of};

use crate::{MetaLines, Schemas, SchemasError};
use doc_store::DocStore;
use expanded_tree::Node;
use meta_schema::SchemaError;
use plain_tree::PlainTree;
use std::alloc::Global;
use std::process::Abort;
use std::test::Fail;
use stores::{CHUNK, HEIGHT, THREE_ROWS, TWO_ROWS, UNKNOWN_CLASS, UNKNOWN_ENUM, store_of};

/// Adds the lines of a node.
fn print_node(
    alloc: Global,
    lines: &mut MetaLines<'_>,
    node: Node,
    text: &mut String,
) -> Result<(), Fail>
    requires { IsTrue ((standing_of lines.old.tree).is_valid node) }
    ensures { lines.new.tree ≡ lines.old.tree }
{
    lines.turn_to(node)?;
    let mut line = Vec::new(alloc);
    for i in 0..lines.len() {
        lines.write(i, &mut line)?;
        text.push_str(str::from_utf8(line.as_slice())?)?;
    }
    Ok(())
}

/// Adds the lines of these nodes.
fn print_nodes(
    alloc: Global,
    lines: &mut MetaLines<'_>,
    nodes: &[Node],
    text: &mut String,
) -> Result<(), Fail>
    requires { All (λ n. IsTrue ((standing_of lines.old.tree).is_valid n)) nodes.now }
{
    for node in nodes {
        print_node(alloc, lines, *node, text)?;
    }
    Ok(())
}

/// The lines of all nodes of the tree of a store, in preorder.
fn print_all(alloc: Global, store: &DocStore) -> Result<String, Fail> {
    let tree = PlainTree::build(alloc, store)?;
    let nodes = tree.preorder(alloc)?;
    let mut text = String::new(alloc);
    let Ok(schemas) = Schemas::read(alloc, store, &tree, nodes.as_slice()) else {
        text.push_str("refused")?;
        return Ok(text);
    };
    let mut lines = MetaLines::new(alloc, store, &tree, &schemas);
    print_nodes(alloc, &mut lines, nodes.as_slice(), &mut text)?;
    Ok(text)
}

/// What stands for the schema in the document, the end of the subtree's JSON chunk, and the lines.
static TREES: [(&str, &str, &str); 4] = [
    (
        HEIGHT,
        THREE_ROWS,
        "meta r h 10\nmeta r!1.0.0 h 20\nmeta r!1.0.1 h 30\n",
    ),
    (HEIGHT, TWO_ROWS, "meta r h 10\nmeta r!1.0.0 h 20\n"),
    (HEIGHT, UNKNOWN_CLASS, "table r UnknownClass\n"),
    ("", THREE_ROWS, ""),
];

#[test]
fn lines_of_trees(rt: HostRuntime) -> Result<(), Fail> {
    let alloc = rt.alloc();
    for (schema, table, wanted) in TREES.iter() {
        let store = store_of(&rt, alloc, schema, table, CHUNK)?;
        assert_eq!(rt; print_all(alloc, &store)?.as_str(), *wanted);
    }
    Ok(())
}

/// The first cause of the schemas of a store's tree.
fn cause_in(alloc: Global, store: &DocStore) -> Result<Option<SchemasError>, Fail> {
    let tree = PlainTree::build(alloc, store)?;
    let nodes = tree.preorder(alloc)?;
    Ok(Schemas::read(alloc, store, &tree, nodes.as_slice()).err())
}

#[test]
fn an_unread_schema(rt: HostRuntime) -> Result<(), Fail> {
    let alloc = rt.alloc();
    let store = store_of(&rt, alloc, UNKNOWN_ENUM, THREE_ROWS, CHUNK)?;
    let wanted = SchemasError::Refused {
        cause: SchemaError::UnknownEnum,
    };
    assert!(rt; cause_in(alloc, &store)? == Some(wanted));
    Ok(())
}
