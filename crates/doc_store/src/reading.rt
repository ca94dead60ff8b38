//! Reading the bytes of a document.

ghost use Rattle.std.specs.Prelude.{◌≡◌, ◌≢◌, None, Ok, Some, IfOk, IfSome, IsOk, OnOk};
ghost use Rattle.std.specs.Prelude.{option_map};
ghost use Rattle.tile_types.specs.declared.key.Kind.TheVariants as kind;
ghost use Rattle.tileset_schema.specs.declared.error.DocumentError.TheVariants.{OutOfMemory};
ghost use Rattle.tileset_schema.specs.Causes.{Gives};
ghost use Rattle.tileset_schema.specs.Documents.{document, schema};
ghost use Rattle.tileset_schema.specs.Preorder.{rows, rows_read};
ghost use Rattle.subtree_binary.specs.declared.error.SubtreeError.TheVariants as subtree_error;
ghost use Rattle.subtree_binary.specs.Subtrees.{HasCounts};
ghost use Rattle.doc_store.specs.Docs.{if_read, subtree_for};
ghost use Rattle.doc_store.specs.Store.{IsDocumentKind, IsWithinLevels};
ghost use Rattle.doc_store.specs.States.{rows_in};
ghost use Rattle.doc_store.specs.Kept.{IsReading, state_kept, subtree_kept, tileset_kept};

use crate::state::DocState;
use bytes::Bytes;
use std::alloc::{AllocError, Global};
use subtree_binary::{Subtree, SubtreeError};
use tile_types::{Key, Kind, Text};
use tile_uri::{Address, Base, UriError};
use tileset_schema::{Document, DocumentError, read};

/// What is read from the bytes of a document: nothing where they are refused.
#[derive(Drop)]
pub(crate) enum Reading {
    Tileset(Document),
    Subtree(Subtree),
    Refused,
}

impl Reading {
    /// Whether the bytes are read or refused.
    pub(crate) fn state(&self) -> DocState
        ensures { result ≡ state_kept self.now }
    {
        match self {
            Reading::Tileset(_) => DocState::Read,
            Reading::Subtree(_) => DocState::Read,
            Reading::Refused => DocState::Refused,
        }
    }

    /// The tileset that is read.
    pub(crate) fn tileset(&self) -> Option<&Document>
        ensures { option_map (λ d. d.now) result ≡ tileset_kept self.now }
    {
        match self {
            Reading::Tileset(document) => Some(document),
            Reading::Subtree(_) => None,
            Reading::Refused => None,
        }
    }

    /// The subtree that is read.
    pub(crate) fn subtree(&self) -> Option<&Subtree>
        ensures { option_map (λ s. s.now) result ≡ subtree_kept self.now }
    {
        match self {
            Reading::Tileset(_) => None,
            Reading::Subtree(subtree) => Some(subtree),
            Reading::Refused => None,
        }
    }
}

/// The document of these bytes at an address.
pub(crate) fn read_root(
    alloc: Global,
    root: &Address,
    bytes: &[u8],
) -> Result<Document, DocumentError>
    ensures tiles { Gives (λ d. d.rows) result (rows_read (document bytes.now root.now)) }
    ensures schema { IfOk result (λ d. d.schema ≡ schema bytes.now) }
{
    match Base::new(alloc, root.text().as_str()) {
        Ok(base) => read(alloc, bytes, &base),

        // An address stands for its own text, so that only memory can be wanting.
        Err(_) => Err(DocumentError::OutOfMemory),
    }
}

/// What is read from the bytes of a key's document: nothing where they are refused.
pub(crate) fn read_for(alloc: Global, key: &Key, bytes: &Bytes) -> Result<Reading, AllocError>
    requires { IsDocumentKind key.now.kind }
    ensures { IfOk result (IsReading key.now bytes.now) }
{
    match key.kind {
        Kind::Content => Ok(Reading::Refused),
        Kind::Tileset => match read_at(alloc, &key.address, bytes.as_slice())? {
            Some(document) => Ok(Reading::Tileset(document)),
            None => Ok(Reading::Refused),
        },
        Kind::Subtree {
            octree,
            levels,
            contents,
        } => match read_subtree(alloc, bytes, octree, levels, contents)? {
            Some(subtree) => Ok(Reading::Subtree(subtree)),
            None => Ok(Reading::Refused),
        },
    }
}

/// What is read from the bytes of the tileset at an address: nothing where they are refused.
fn read_at(alloc: Global, address: &Text, bytes: &[u8]) -> Result<Option<Document>, AllocError>
    ensures tiles { IfOk result
        (λ d. option_map (λ d. d.rows) d ≡ rows_in address.now bytes.now) }
    ensures schema { IfOk result (λ d. IfSome d (λ d. d.schema ≡ schema bytes.now)) }
{
    match Base::new(alloc, address.as_str()) {
        Ok(base) => read_below(alloc, &base, bytes),
        Err(UriError::OutOfMemory) => Err(AllocError),
        Err(UriError::NotAnAddress) => Ok(None),
        Err(UriError::TooLong) => Ok(None),
        Err(UriError::Placeholder) => Ok(None),
    }
}

fn read_below(alloc: Global, base: &Base, bytes: &[u8]) -> Result<Option<Document>, AllocError>
    ensures tiles { IfOk result (λ d. option_map (λ d. d.rows) d
        ≡ option_map rows (if_read (document bytes.now base.now))) }
    ensures schema { IfOk result (λ d. IfSome d (λ d. d.schema ≡ schema bytes.now)) }
{
    match read(alloc, bytes, base) {
        Ok(document) => Ok(Some(document)),
        Err(cause) => no_tileset(cause),
    }
}

/// No tileset, unless memory ran out.
fn no_tileset(cause: DocumentError) -> Result<Option<Document>, AllocError>
    ensures none { IfOk result (λ d. d ≡ None) }
    ensures cause { OnOk result (cause ≢ OutOfMemory) }
    ensures told { cause ≢ OutOfMemory → IsOk result }
{
    match cause {
        DocumentError::OutOfMemory => Err(AllocError),
        _ => Ok(None),
    }
}

/// What is read from the bytes of such a subtree: nothing where they are refused.
fn read_subtree(
    alloc: Global,
    bytes: &Bytes,
    octree: bool,
    levels: u8,
    contents: u32,
) -> Result<Option<Subtree>, AllocError>
    requires { IsWithinLevels octree levels }
    ensures value { IfOk result
        (λ s. s ≡ subtree_for (kind.Subtree octree levels contents) bytes.now) }
    ensures counts { IfOk result (λ s. IfSome s (HasCounts octree levels contents)) }
{
    match subtree_binary::read(alloc, bytes, octree, levels, contents) {
        Ok(subtree) => Ok(Some(subtree)),
        Err(cause) => no_subtree(cause),
    }
}

/// No subtree, unless memory ran out.
fn no_subtree(cause: SubtreeError) -> Result<Option<Subtree>, AllocError>
    ensures none { IfOk result (λ s. s ≡ None) }
    ensures cause { OnOk result (cause ≢ subtree_error.OutOfMemory) }
    ensures told { cause ≢ subtree_error.OutOfMemory → IsOk result }
{
    match cause {
        SubtreeError::OutOfMemory => Err(AllocError),
        _ => Ok(None),
    }
}
