//! The contents of a tile: its own, and external tilesets (OGC 22-025r4, "External tilesets").

ghost use Rattle.std.specs.Prelude.{◌≡◌, ◌<◌, ◌^◌, Some, length, slice_get};
ghost use Rattle.tree_expansion.specs.Expansion.{is_some_left, external_of, own_of};

use tile_types::Text;
use tileset_schema::Written;

/// Whether one of a tile's contents is an external tileset.
pub(crate) fn has_external(own: &Written) -> bool
    ensures { result ≡ is_some_left (external_of own.now.parts.contents) }
{
    for i in 0..own.content_count() {
        if own.is_external(i) {
            return true;
        }
    }
    false
}

/// How many contents of a tile are no external tilesets.
pub(crate) fn own_count(own: &Written) -> u32
    requires { length (own_of own.now.parts.contents) < 2 ^ 32 }
    ensures { result ≡ length (own_of own.now.parts.contents) }
{
    let mut count = 0;
    for i in 0..own.content_count() {
        if !own.is_external(i) {
            count += 1;
        }
    }
    count
}

/// The content of this number among those that are no external tilesets.
pub(crate) fn own_content(own: &Written, number: u32) -> &Text
    requires { number < length (own_of own.now.parts.contents) }
    ensures { slice_get (own_of own.now.parts.contents) number ≡ Some result.now }
{
    let mut left = number;
    for i in 0..own.content_count() {
        if !own.is_external(i) {
            if left == 0 {
                return own.content(i);
            }
            left -= 1;
        }
    }
    unreachable!()
}
