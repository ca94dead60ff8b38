//! The keys of contents.

ghost use Rattle.std.specs.Prelude.{◌≡◌, IfOk};
ghost use Rattle.cut_core.specs.Visits.{content_key};

use std::alloc::{AllocError, Global};
use tile_types::{Key, Kind, Text};

/// What the content at this address is loaded by.
pub fn key_of_content(alloc: Global, address: &Text) -> Result<Key, AllocError>
    ensures { IfOk result (λ key. key ≡ content_key address.now) }
{
    Ok(Key {
        kind: Kind::Content,
        address: address.copy(alloc)?,
    })
}
