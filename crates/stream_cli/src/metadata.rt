//! The lines of the metadata of implicit tiles.

ghost use Rattle.std.specs.Prelude.{◌≡◌, All, IsTrue};
ghost use Rattle.std.specs.List.{flat_map};
ghost use Rattle.doc_store.specs.Store.{docs};
ghost use Rattle.plain_tree.specs.Standing.{standing_of};
ghost use Rattle.stream_cli.specs.Printing.{PutsLines};
ghost use Rattle.stream_cli.specs.Sides.{out_run};
ghost use Rattle.tile_metadata.specs.Metadata.{lines_of};

use expanded_tree::Node;
use source_port::{PutError, Sink};
use std::alloc::Global;
use tile_metadata::MetaLines;

/// Puts the lines of each node, in order.
pub fn put_metadata<W: Sink>(
    alloc: Global,
    nodes: &[Node],
    lines: &mut MetaLines<'_>,
    out: &mut W,
) -> Result<(), PutError>
    requires { All (λ n. IsTrue ((standing_of lines.now.tree).is_valid n)) nodes.now }
    ensures { PutsLines result (out_run W.written W.faults W.puts out.old out.new)
        (flat_map (λ n. lines_of (docs lines.old.store)
        ((standing_of lines.old.tree).node_tree n)) nodes.now) }
{
    let mut line = Vec::new(alloc);
    for node in nodes {
        if lines.turn_to(*node).is_err() {
            return Err(PutError::OutOfMemory);
        }
        match put_lines(alloc, lines, &mut line, out) {
            Ok(()) => {}
            Err(cause) => return Err(cause),
        }
    }
    Ok(())
}

/// Puts the lines of the node that the lines stand at, each written in place of what the line held.
fn put_lines<W: Sink>(
    alloc: Global,
    lines: &MetaLines<'_>,
    line: &mut Vec<u8>,
    out: &mut W,
) -> Result<(), PutError>
    ensures { PutsLines result (out_run W.written W.faults W.puts out.old out.new) lines.now.lines }
{
    for i in 0..lines.len() {
        if lines.write(i, line).is_err() {
            return Err(PutError::OutOfMemory);
        }
        match out.put(alloc, line.as_slice()) {
            Ok(()) => {}
            Err(cause) => return Err(cause),
        }
    }
    Ok(())
}
