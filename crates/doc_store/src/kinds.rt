//! What a store keeps.

ghost use Rattle.std.specs.Prelude.{◌≡◌, ◌↔◌, IsTrue};
ghost use Rattle.doc_store.specs.Store.{IsDocumentKind};
ghost use Rattle.subtree_binary.specs.Counts as counts;

use avail_bits::{OCTREE_SUBTREE_LEVELS, QUADTREE_SUBTREE_LEVELS};
use tile_types::Kind;

/// Whether a store keeps documents of this kind: tilesets, and subtrees whose levels are within the
/// limits (OGC 22-025r4, "Subtrees").
pub fn is_document_kind(kind: Kind) -> bool
    ensures { IsTrue result ↔ IsDocumentKind kind }
{
    match kind {
        Kind::Content => false,
        Kind::Tileset => true,
        Kind::Subtree { octree, levels, .. } => 1 <= levels && levels <= level_limit(octree),
    }
}

/// The most levels of a subtree.
fn level_limit(octree: bool) -> u8
    ensures { result ≡ counts.level_limit octree }
{
    if octree {
        OCTREE_SUBTREE_LEVELS
    } else {
        QUADTREE_SUBTREE_LEVELS
    }
}
