//! What is loaded, and by which key.

ghost use Rattle.std.specs.Prelude.{◌≡◌, ◌≤◌, length, IfOk, IsOk};
ghost use Rattle.tile_types.specs.declared.text.TheConstants.{SHORT_TEXT};

use crate::text::Text;
use lists::List;
use std::alloc::{AllocError, Global};

/// What a key's bytes are to be read as (OGC 22-025r4, "Tileset JSON" and "Subtrees").
#[derive(Clone, Copy, Debug, PartialEq, Eq, Hash)]
pub enum Kind {
    /// A tile's content, which passes on unread.
    Content,
    /// A tileset document.
    Tileset,
    /// A binary subtree: of an octree or a quadtree, its levels, and how many contents each tile
    /// may have.
    Subtree {
        octree: bool,
        levels: u8,
        contents: u32,
    },
}

/// What is loaded as one: an address, and what its bytes are to be read as.
#[derive(Debug, PartialEq, Eq, Hash, Drop)]
pub struct Key {
    pub kind: Kind,
    pub address: Text,
}

/// Keys, in order.
pub type KeyList = List<Key>;

impl Key {
    /// The same key again.
    pub fn copy(&self, alloc: Global) -> Result<Key, AllocError>
        ensures value { IfOk result (λ key. key ≡ self.now) }
        ensures short { length self.now.address ≤ SHORT_TEXT → IsOk result }
    {
        Ok(Key {
            kind: self.kind,
            address: self.address.copy(alloc)?,
        })
    }
}
