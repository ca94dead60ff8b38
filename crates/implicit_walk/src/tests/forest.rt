//! Subtrees in memory.

ghost use Rattle.std.specs.Prelude.{◌≡◌, length, option_map, IfOk};
ghost use Rattle.std.specs.List.{find, list_any};
ghost use Rattle.tile_types.specs.Keys.{same_key};
ghost use Rattle.tile_types.specs.declared.key.Kind.TheVariants as kinds;

use super::kind_of;
use super::loaded::Loaded;
use bytes::Bytes;
use std::alloc::{AllocError, Global};
use std::test::Fail;
use subtree_binary::{Subtree, Subtrees, read};
use tile_types::{Key, Text};
use tileset_schema::ImplicitPart;

/// The address of a subtree, and its three bitstreams, of tiles, of the first content and of child
/// subtrees; where there are none, nothing comes of it.
pub type File = (&'static str, Option<[u64; 3]>);

/// The JSON chunk of each subtree. The second content and the third are everywhere, and a fourth
/// nowhere.
const CHUNK: &str = concat!(
    r#"{"buffers":[{"byteLength":24}],"bufferViews":[{"buffer":0,"byteLength":8},"#,
    r#"{"buffer":0,"byteOffset":8,"byteLength":8},{"buffer":0,"byteOffset":16,"byteLength":8}],"#,
    r#""tileAvailability":{"bitstream":0},"childSubtreeAvailability":{"bitstream":2},"#,
    r#""contentAvailability":[{"bitstream":1},{"constant":1},{"constant":1}]}"#
);

/// The subtrees that are at hand, and the keys of which nothing comes.
#[derive(Drop)]
pub struct Forest {
    loaded: Vec<Loaded>,
    gone: Vec<Key>,
}

impl Forest {
    /// The subtrees of an implicit part in these files.
    pub fn new(alloc: Global, part: &ImplicitPart, files: &[File]) -> Result<Forest, Fail> {
        let mut forest = Forest {
            loaded: Vec::new(alloc),
            gone: Vec::new(alloc),
        };
        for (address, streams) in files {
            forest.add(alloc, part, address, streams)?;
        }
        Ok(forest)
    }

    fn add(
        &mut self,
        alloc: Global,
        part: &ImplicitPart,
        address: &str,
        streams: &Option<[u64; 3]>,
    ) -> Result<(), Fail> {
        let key = key_of(alloc, part, address)?;
        let Some(streams) = streams else {
            return Ok(self.gone.push(key)?);
        };
        let bytes = bytes_of(alloc, streams)?;
        let (octree, levels) = (part.octree(), part.subtree_levels());
        let subtree = read(alloc, &bytes, octree, levels, part.contents().len() as u32)?;
        Ok(self.loaded.push(Loaded { key, subtree })?)
    }

    fn loaded_for(&self, key: &Key) -> Option<&Loaded>
        ensures { option_map (λ l. l.now) result
            ≡ find (λ l. same_key l.key key.now) self.now.loaded.items }
    {
        self.loaded.iter().find(|l| l.key == *key)
    }

    fn is_gone(&self, key: &Key) -> bool
        ensures { result ≡ list_any (λ k. same_key k key.now) self.now.gone.items }
    {
        self.gone.iter().any(|k| k == key)
    }
}

/// The key of a subtree.
fn key_of(alloc: Global, part: &ImplicitPart, address: &str) -> Result<Key, AllocError>
    ensures { let parts = part.now in IfOk result (λ key. key.kind
        ≡ kinds.Subtree parts.octree parts.subtree_levels (length parts.contents)) }
{
    Ok(Key {
        kind: kind_of(part),
        address: Text::new(alloc, address)?,
    })
}

/// The bytes of a subtree.
fn bytes_of(alloc: Global, streams: &[u64; 3]) -> Result<Bytes, AllocError> {
    let mut bytes = Vec::from_slice(alloc, b"subt\x01\0\0\0")?;
    bytes.extend_from_slice(&(CHUNK.len() as u64).to_le_bytes())?;
    bytes.extend_from_slice(&24_u64.to_le_bytes())?;
    bytes.extend_from_slice(CHUNK.as_bytes())?;
    for stream in streams {
        bytes.extend_from_slice(&stream.to_le_bytes())?;
    }
    Bytes::copy_from_slice(alloc, &bytes)
}

impl Subtrees for Forest {
    ghost use Rattle.std.specs.Prelude.{unwrap_or, if◌then◌else◌};
    ghost use Rattle.subtree_binary.specs.Found.{waiting, lost, here};

    ghost found = { λ forest key. unwrap_or
        (option_map (λ l. here l.subtree) (find (λ l. same_key l.key key) forest.loaded.items))
        (if list_any (λ k. same_key k key) forest.gone.items then lost else waiting) };

    fn subtree(&self, key: &Key) -> Option<&Subtree> {
        Some(&self.loaded_for(key)?.subtree)
    }

    fn lost(&self, key: &Key) -> bool {
        match self.loaded_for(key) {
            Some(_) => false,
            None => self.is_gone(key),
        }
    }
}
