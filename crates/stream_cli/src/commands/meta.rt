//! The command `meta`.

ghost use Rattle.std.specs.Prelude.{◌≡◌};
ghost use Rattle.doc_store.specs.Store.{docs};
ghost use Rattle.plain_tree.specs.Standing.{standing_of};
ghost use Rattle.tree_nodes.specs.Trees.{stored_tree};
ghost use Rattle.stream_cli.specs.Looks.{EndsLook, Finds, IsIdle, Looks, OfMeta};
ghost use Rattle.stream_cli.specs.Runs.{IsListable};
ghost use Rattle.stream_cli.specs.Sides.{SourceRun, out_run};

use crate::cause::Cause;
use crate::commands::pending::pending_keys;
use crate::look::Look;
use crate::metadata::put_metadata;
use crate::printing::cause_of;
use doc_store::DocStore;
use plain_tree::PlainTree;
use source_port::Sink;
use std::alloc::Global;
use tile_metadata::{MetaLines, Schemas};
use tile_types::Key;

/// Prints the metadata of the implicit tiles of the tree of the loaded documents, or says which
/// further ones its nodes wait for. No content is fetched, whatever the source is.
pub(crate) fn look<W: Sink>(alloc: Global, store: DocStore, out: &mut W) -> Look
    ensures { (source : SourceRun) → IsIdle source 0
        → Looks (OfMeta (docs store) (stored_tree store)) store source
        (out_run W.written W.faults W.puts out.old out.new) (out.new ≡ out.old) result }
{
    match print_or_wait(alloc, &store, out) {
        Ok(keys) => Look::Awaits { keys, store },
        Err(cause) => Look::Ended(cause),
    }
}

/// Prints the metadata and answers what the run ends with, or answers the keys that nodes wait for.
fn print_or_wait<W: Sink>(alloc: Global, store: &DocStore, out: &mut W) -> Result<Vec<Key>, Cause>
    ensures { (source : SourceRun) → IsIdle source 0
        → Finds (OfMeta (docs store.now) (stored_tree store.now)) source
        (out_run W.written W.faults W.puts out.old out.new) (out.new ≡ out.old) result }
{
    let tree = match PlainTree::build(alloc, store) {
        Ok(tree) => tree,
        Err(error) => return Err(Cause::of_tree(error)),
    };
    if tree.is_whole() {
        return Err(print_metadata(alloc, store, &tree, out));
    }
    match pending_keys(alloc, &tree) {
        Ok(keys) => Ok(keys),
        Err(_) => Err(Cause::Memory),
    }
}

/// Prints the metadata of a tree that waits for no document, in preorder, once each schema is read.
fn print_metadata<W: Sink>(
    alloc: Global,
    store: &DocStore,
    tree: &PlainTree<'_>,
    out: &mut W,
) -> Cause
    requires { tree.now.store ≡ store.now }
    ensures { (source : SourceRun) → IsIdle source 0 → IsListable (standing_of tree.now).tree
        → EndsLook (OfMeta (docs store.now) (standing_of tree.now).tree) source 0
        (out_run W.written W.faults W.puts out.old out.new) (out.new ≡ out.old) result }
{
    let Ok(nodes) = tree.preorder(alloc) else {
        return Cause::Memory;
    };
    let schemas = match Schemas::read(alloc, store, tree, nodes.as_slice()) {
        Ok(schemas) => schemas,
        Err(error) => return Cause::of_schemas(error),
    };
    let mut lines = MetaLines::new(alloc, store, tree, &schemas);
    cause_of(put_metadata(alloc, nodes.as_slice(), &mut lines, out), out)
}
