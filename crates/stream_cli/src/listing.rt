//! The lines that list the tiles of a tree.

ghost use Rattle.std.specs.Prelude.{◌≡◌, ◌≤◌, ◌++◌, All, IsTrue, OnOk, drop, length, map};
ghost use Rattle.std.specs.List.{flat_map};
ghost use Rattle.expanded_tree.specs.Tree.{addresses_of};
ghost use Rattle.plain_tree.specs.Standing.{standing_of};
ghost use Rattle.stream_cli.specs.Listing as listing;
ghost use Rattle.stream_cli.specs.Printing.{PutsLines};
ghost use Rattle.stream_cli.specs.Sides.{out_run};

use crate::line_end::{END_BYTES, place_end};
use expanded_tree::{Node, NodeFacts, TileTree};
use plain_tree::PlainTree;
use source_port::{PutError, Sink};
use std::alloc::{AllocError, Global};
use tile_types::Text;

/// Adds the bytes from a place on.
fn push_from(line: &mut Vec<u8>, bytes: &[u8], start: usize) -> Result<(), AllocError>
    requires { start ≤ length bytes.now }
    ensures { OnOk result (line.new.items ≡ line.old.items ++ drop start bytes.now) }
{
    line.extend_from_slice(&bytes[start..])
}

/// Puts the line `tile NAME REFINE ERROR VOLUME` in place of what the vector held. The bytes are
/// room for the end of the line.
fn write_tile(
    line: &mut Vec<u8>,
    bytes: &mut [u8; END_BYTES],
    name: &str,
    facts: &NodeFacts,
) -> Result<(), AllocError>
    ensures { OnOk result (line.new.items ≡ listing.tile_line name.now facts.now) }
{
    let start = place_end(bytes, facts);
    line.clear();
    line.extend_from_slice(b"tile ")?;
    line.extend_from_slice(name.as_bytes())?;
    push_from(line, bytes, start)?;
    Ok(())
}

/// Puts the line `content NAME ADDRESS` in place of what the vector held.
#[tactic(auto, unfolding(crate::specs::Listing::content_line))]
fn write_content(line: &mut Vec<u8>, name: &str, address: &Text) -> Result<(), AllocError>
    ensures { OnOk result (line.new.items ≡ listing.content_line name.now address.now) }
{
    line.clear();
    line.extend_from_slice(b"content ")?;
    line.extend_from_slice(name.as_bytes())?;
    line.extend_from_slice(b" ")?;
    line.extend_from_slice(address.as_str().as_bytes())?;
    line.extend_from_slice(b"\n")
}

/// Puts the lines of the tiles among these nodes of a tree, each line by one put.
pub fn put_tiles<W: Sink>(
    alloc: Global,
    tree: &PlainTree<'_>,
    nodes: &[Node],
    out: &mut W,
) -> Result<(), PutError>
    requires { All (λ n. IsTrue ((standing_of tree.now).is_valid n)) nodes.now }
    ensures { PutsLines result (out_run W.written W.faults W.puts out.old out.new)
        (flat_map (λ n. listing.lines_of ((standing_of tree.now).node_tree n)) nodes.now) }
{
    let mut line = Vec::new(alloc);
    let mut name = String::new(alloc);
    let mut bytes = [0; END_BYTES];
    for node in nodes {
        match put_node(alloc, &mut line, &mut name, &mut bytes, tree, *node, out) {
            Ok(()) => {}
            Err(cause) => return Err(cause),
        }
    }
    Ok(())
}

/// Puts the lines of a node, none where it is no tile. Each is written in place of what the vector
/// held, the name in place of what the string held, and the end of a line into the bytes.
fn put_node<W: Sink>(
    alloc: Global,
    line: &mut Vec<u8>,
    name: &mut String,
    bytes: &mut [u8; END_BYTES],
    tree: &PlainTree<'_>,
    node: Node,
    out: &mut W,
) -> Result<(), PutError>
    requires { IsTrue ((standing_of tree.now).is_valid node) }
    ensures { PutsLines result (out_run W.written W.faults W.puts out.old out.new)
        (listing.lines_of ((standing_of tree.now).node_tree node)) }
{
    if tree.pending(node).is_some() {
        return Ok(());
    }
    let Ok(()) = tree.write_name_over(alloc, node, name) else {
        return Err(PutError::OutOfMemory);
    };
    let named = name.as_str();
    let facts = tree.facts(node);
    if write_tile(line, bytes, named, &facts).is_err() {
        return Err(PutError::OutOfMemory);
    }
    match out.put(alloc, line.as_slice()) {
        Ok(()) => put_contents(alloc, line, tree, node, named, out),
        Err(cause) => Err(cause),
    }
}

/// Puts a line for each own content of a tile.
fn put_contents<W: Sink>(
    alloc: Global,
    line: &mut Vec<u8>,
    tree: &PlainTree<'_>,
    node: Node,
    name: &str,
    out: &mut W,
) -> Result<(), PutError>
    requires { IsTrue ((standing_of tree.now).is_valid node) }
    ensures { PutsLines result (out_run W.written W.faults W.puts out.old out.new)
        (map (listing.content_line name.now)
        (addresses_of ((standing_of tree.now).node_tree node))) }
{
    for i in 0..tree.content_count(node) {
        if write_content(line, name, tree.content(node, i)).is_err() {
            return Err(PutError::OutOfMemory);
        }
        match out.put(alloc, line.as_slice()) {
            Ok(()) => {}
            Err(cause) => return Err(cause),
        }
    }
    Ok(())
}
