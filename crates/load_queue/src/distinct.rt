//! Whether wants have keys of their own.

ghost use Rattle.std.specs.Prelude.{◌↔◌, ◌≡◌, [], IfOk, IsOk, IsTrue, map};
ghost use Rattle.std.specs.List.{IsDistinct};
ghost use Rattle.tile_types.specs.Keys.{same_key};

use indexmap::IndexSet;
use std::alloc::{AllocError, Global};
use tile_types::{Key, WantList};

/// Whether no two of the wants have the same key, which `RankedQueue::set_wants` asks for. Of no
/// wants it takes no memory.
pub fn are_keys_distinct(alloc: Global, wants: &WantList) -> Result<bool, AllocError>
    ensures value { IfOk result (λ distinct. IsTrue distinct
        ↔ IsDistinct same_key (map (λ want. want.key) wants.now)) }
    ensures none { wants.now ≡ [] → IsOk result }
{
    if wants.is_empty() {
        return Ok(true);
    }
    let mut seen: IndexSet<&Key> = IndexSet::with_capacity(alloc, wants.len())?;
    for want in wants.as_slice() {
        if !seen.insert(&want.key)? {
            return Ok(false);
        }
    }
    Ok(true)
}
