//! The command `tiles`.

ghost use Rattle.std.specs.Prelude.{◌≡◌};
ghost use Rattle.plain_tree.specs.Standing.{standing_of};
ghost use Rattle.tree_nodes.specs.Trees.{stored_tree};
ghost use Rattle.stream_cli.specs.Listing.{listing};
ghost use Rattle.stream_cli.specs.Looks.{Finds, IsIdle, Looks, OfTiles};
ghost use Rattle.stream_cli.specs.Printing.{IsPrintCause};
ghost use Rattle.stream_cli.specs.Sides.{SourceRun, out_run};

use crate::cause::Cause;
use crate::commands::pending::pending_keys;
use crate::listing::put_tiles;
use crate::look::Look;
use crate::printing::cause_of;
use doc_store::DocStore;
use plain_tree::PlainTree;
use source_port::Sink;
use std::alloc::Global;
use tile_types::Key;

/// Prints the tiles of the tree of the loaded documents, or says which further ones its nodes wait
/// for. No content is fetched, whatever the source is.
pub(crate) fn look<W: Sink>(alloc: Global, store: DocStore, out: &mut W) -> Look
    ensures { (source : SourceRun) → IsIdle source 0
        → Looks (OfTiles (stored_tree store)) store source
        (out_run W.written W.faults W.puts out.old out.new) (out.new ≡ out.old) result }
{
    match print_or_wait(alloc, &store, out) {
        Ok(keys) => Look::Awaits { keys, store },
        Err(cause) => Look::Ended(cause),
    }
}

/// Prints the tiles and answers what the run ends with, or answers the keys that nodes wait for.
fn print_or_wait<W: Sink>(alloc: Global, store: &DocStore, out: &mut W) -> Result<Vec<Key>, Cause>
    ensures { (source : SourceRun) → IsIdle source 0
        → Finds (OfTiles (stored_tree store.now)) source
        (out_run W.written W.faults W.puts out.old out.new) (out.new ≡ out.old) result }
{
    let tree = match PlainTree::build(alloc, store) {
        Ok(tree) => tree,
        Err(error) => return Err(Cause::of_tree(error)),
    };
    if tree.is_whole() {
        return Err(print_tiles(alloc, &tree, out));
    }
    match pending_keys(alloc, &tree) {
        Ok(keys) => Ok(keys),
        Err(_) => Err(Cause::Memory),
    }
}

/// Prints the tiles of a tree, in preorder.
fn print_tiles<W: Sink>(alloc: Global, tree: &PlainTree<'_>, out: &mut W) -> Cause
    ensures { IsPrintCause (out_run W.written W.faults W.puts out.old out.new)
        (listing (standing_of tree.now).tree) result }
{
    let Ok(nodes) = tree.preorder(alloc) else {
        return Cause::Memory;
    };
    cause_of(put_tiles(alloc, tree, nodes.as_slice(), out), out)
}
