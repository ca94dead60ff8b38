//! The documents that a whole tree waits for.

ghost use Rattle.std.specs.Prelude.{◌≡◌, IfOk};
ghost use Rattle.plain_tree.specs.Standing.{standing_of};
ghost use Rattle.stream_cli.specs.Awaited.{awaited_anywhere};

use expanded_tree::TileTree;
use plain_tree::PlainTree;
use std::alloc::{AllocError, Global};
use tile_types::Key;

/// The keys of the pending nodes of a tree, in preorder.
pub(crate) fn pending_keys(alloc: Global, tree: &PlainTree<'_>) -> Result<Vec<Key>, AllocError>
    ensures { IfOk result (λ keys. keys.items ≡ awaited_anywhere (standing_of tree.now).tree) }
{
    let mut keys = Vec::new(alloc);
    let nodes = tree.preorder(alloc)?;
    for node in nodes.as_slice() {
        if let Some(key) = tree.pending(*node) {
            keys.push(key.copy(alloc)?)?;
        }
    }
    Ok(keys)
}
