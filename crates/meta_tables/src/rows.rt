//! Which table is that of tiles, and which row is a tile's.

ghost use Rattle.std.specs.Prelude.{◌≡◌, ◌<◌, length, IfOk};
ghost use Rattle.meta_tables.specs.Rows as spec;

use crate::reading::number_of;
use std::alloc::{AllocError, Global};
use subtree_binary::{Subtree, last};

/// The number of the table for tiles (OGC 22-025r4, "Subtree metadata", `tileMetadata`), or None
/// where it isn't there or isn't a whole number from 0 to 2^32 - 1.
pub fn tile_table(alloc: Global, subtree: &Subtree) -> Result<Option<u32>, AllocError>
    ensures { IfOk result (λ number. number ≡ spec.tile_table subtree.now) }
{
    let Some(text) = subtree.text(alloc)? else {
        return Ok(None);
    };
    let Some(top) = text.root().members() else {
        return Ok(None);
    };
    Ok(number_of(last(top, "tileMetadata")))
}

/// The row of the tile of this number in its subtree: how many tile bits are set before its own.
#[inline]
pub fn row_of(subtree: &Subtree, index: u64) -> u64
    requires { index < length subtree.now.tiles }
    ensures { result ≡ spec.row_of subtree.now.tiles index }
{
    subtree.tiles().rank(index)
}
