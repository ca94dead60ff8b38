//! The documents at hand, found by their keys.

ghost use Rattle.std.specs.Prelude.{◌≡◌, ◌≢◌, ◌↔◌, ◌≤◌, ◌<◌, ◌+◌, ℕ, Bool, List, [], ◌∷◌, ◌++◌};
ghost use Rattle.std.specs.Prelude.{length, Ok, None, Some, IsTrue, IfOk, IfErr, IfSome, OnOk, IsOk};
ghost use Rattle.std.specs.Prelude.{option_map, slice_get, MatchOption};
ghost use Rattle.std.specs.Option.{option_and_then};
ghost use Rattle.tile_types.specs.declared.key.Key.{Key};
ghost use Rattle.tile_types.specs.declared.key.Kind.TheVariants as kind;
ghost use Rattle.tile_uri.specs.Addresses.{IsAddress};
ghost use Rattle.tileset_schema.specs.Causes.{Fails};
ghost use Rattle.tileset_schema.specs.Documents.{document, schema};
ghost use Rattle.subtree_binary.specs.Subtrees.{HasCounts};
ghost use Rattle.doc_store.specs.Docs.{here_of, is_unread, subtree_at, tileset_key};
ghost use Rattle.doc_store.specs.Store.{docs, with_document};
ghost use Rattle.doc_store.specs.Store.{IsAlone, IsDocumentKind, IsFull, IsOpened};
ghost use Rattle.doc_store.specs.States.{number_in, rows_at, rows_in, rows_of, schema_at};
ghost use Rattle.doc_store.specs.States.{schema_of, state_in, subtree_of};
ghost use Rattle.doc_store.specs.Kept.{IsLoaded, IsNotLoaded, IsNumbered};

use crate::added::Added;
use crate::limits::{DOCUMENT_LIMIT, STORE_BYTES, STORE_DOCUMENTS};
use crate::loaded_document::LoadedDocument;
use crate::reading::{Reading, read_for, read_root};
use crate::state::DocState;
use bytes::Bytes;
use indexmap::{IndexMap, IndexSet};
use std::alloc::{AllocError, Global};
use std::marker::Model;
use subtree_binary::{Subtree, Subtrees};
use tile_types::{Key, Kind, Text};
use tile_uri::Address;
use tileset_schema::{Document, DocumentError};

/// The documents at hand: which are loaded, with what is read from them, and which are absent.
#[derive(Drop)]
pub struct DocStore {
    /// The loaded documents, by their keys, in the order in which they came.
    documents: IndexMap<Key, LoadedDocument>,
    absent: IndexSet<Key>,
    /// How many bytes the documents have together.
    total: u64,
}

impl Model for DocStore {
    ghost use Rattle.std.specs.Prelude.{map};
    ghost use Rattle.indexmap.specs.IndexSet.{spare as room};
    ghost use Rattle.doc_store.specs.Store.{Stored};

    ghost Value = { Stored };

    ghost use Rattle.doc_store.specs.Kept.{AreKept, loaded_of};

    ghost view = { λ s. record {
      loaded = map loaded_of s.documents.entries;
      gone = s.absent.keys;
      spare = room s.absent;
    } };

    ghost invariant = { λ s. AreKept s.documents.entries s.absent.keys s.total };
}

impl DocStore {
    /// A store of the root document, where it is read (OGC 22-025r4, "Tileset JSON").
    pub fn open(alloc: Global, root: &Address, bytes: Bytes) -> Result<DocStore, DocumentError>
        requires { length bytes ≤ DOCUMENT_LIMIT }
        ensures ok { IfOk result (λ store. IsOpened store root.now bytes) }
        ensures err { IfErr result (λ e. Fails e (document bytes root.now)) }
    {
        let document = match read_root(alloc, root, bytes.as_slice()) {
            Ok(document) => document,
            Err(cause) => return Err(cause),
        };
        match store_of(alloc, root.text(), bytes, document) {
            Ok(store) => Ok(store),
            Err(_) => Err(DocumentError::OutOfMemory),
        }
    }

    /// Adds the bytes of a tileset or a subtree, whether they are read or refused, unless the store
    /// is full (OGC 22-025r4, "Tileset JSON" and "Subtrees"). Want of memory changes nothing. Which
    /// bytes are refused, `state_of` tells.
    pub fn add(&mut self, alloc: Global, key: Key, bytes: Bytes) -> Result<Added, AllocError>
        requires document { IsDocumentKind key.kind }
        requires unread { IsTrue (is_unread (docs self.old) key) }
        requires within { length bytes ≤ DOCUMENT_LIMIT }
        ensures kept { result ≡ Ok Added.Kept → self.new ≡ with_document self.old key bytes }
        ensures full { (result ≡ Ok Added.Full) ↔ IsFull self.old (length bytes) }
        ensures unchanged { result ≢ Ok Added.Kept → self.new ≡ self.old }
    {
        if self.is_full(bytes.len()) {
            return Ok(Added::Full);
        }
        let reading = read_for(alloc, &key, &bytes)?;
        let length = bytes.len() as u64;
        self.documents
            .insert(key, LoadedDocument { bytes, reading })?;
        self.total += length;
        Ok(Added::Kept)
    }

    /// Whether so many bytes more don't fit. It takes no memory.
    pub fn is_full(&self, more: usize) -> bool
        ensures { IsTrue result ↔ IsFull self.now more }
    {
        self.documents.len() >= STORE_DOCUMENTS as usize || STORE_BYTES - self.total < more as u64
    }

    /// Takes memory for so many more absent keys, so that marking them takes none.
    pub fn reserve(&mut self, more: u32) -> Result<(), AllocError>
        ensures loaded { self.new.loaded ≡ self.old.loaded }
        ensures gone { self.new.gone ≡ self.old.gone }
        ensures room { OnOk result (more ≤ self.new.spare) }
        ensures never_falls { self.old.spare ≤ self.new.spare }
        ensures succeeds { more ≤ self.old.spare → IsOk result }
    {
        self.absent.reserve(more as usize)
    }

    /// Marks a document's key as absent. It takes no memory.
    pub fn mark_absent(&mut self, key: Key)
        requires room { 0 < self.old.spare }
        requires document { IsDocumentKind key.kind }
        requires unread { IsTrue (is_unread (docs self.old) key) }
        ensures gone { self.new.gone ≡ self.old.gone ++ key ∷ [] }
        ensures loaded { self.new.loaded ≡ self.old.loaded }
        ensures room { self.old.spare ≤ self.new.spare + 1 }
    {
        match self.absent.insert(key) {
            Ok(_) => {}
            Err(_) => unreachable!(),
        }
    }

    /// What is known of a key. It takes no memory.
    pub fn state_of(&self, key: &Key) -> DocState
        ensures state { result ≡ state_in (docs self.now) key.now }
        ensures unread { (result ≡ DocState.NotLoaded)
            ↔ IsTrue (is_unread (docs self.now) key.now) }
    {
        match self.loaded_for(key) {
            Some(loaded) => loaded.reading.state(),
            None if self.absent.contains(key) => DocState::Absent,
            None => DocState::NotLoaded,
        }
    }

    /// The tileset of a key, where it is read. It takes no memory.
    pub fn tileset(&self, key: &Key) -> Option<&Document>
        requires tileset { key.now.kind ≡ kind.Tileset }
        ensures tiles { option_map (λ d. d.now.rows) result
            ≡ rows_at (docs self.now) key.now.address }
        ensures schema { IfSome result
            (λ d. d.now.schema ≡ schema_at (docs self.now) key.now.address) }
    {
        self.loaded_for(key)?.reading.tileset()
    }

    /// What is loaded for a key.
    fn loaded_for(&self, key: &Key) -> Option<&LoadedDocument>
        ensures { MatchOption result (IsNotLoaded (docs self.now) key.now)
            (λ l. IsLoaded (docs self.now) key.now l.now) }
    {
        self.documents.get(key)
    }

    /// The address of the root document, which is loaded first. It takes no memory.
    pub fn root(&self) -> &Text
        ensures value { option_map (λ l. l.key.address) (slice_get self.now.loaded 0)
            ≡ Some result.now }
        ensures address { IsAddress result.now }
    {
        let Some((root, _)) = self.documents.get_index(0) else {
            unreachable!()
        };
        &root.address
    }

    /// The number of a key's document, which it keeps: documents are numbered from 0 in the order
    /// in which they came. It takes no memory.
    pub fn number_of(&self, key: &Key) -> Option<u32>
        ensures { result ≡ number_in self.now key.now }
    {
        let number = self.documents.get_index_of(key)?;
        Some(number as u32)
    }

    /// The key of the document of a number. It takes no memory.
    pub fn document_at(&self, number: u32) -> Option<&Key>
        ensures { option_map (λ key. key.now) result
            ≡ option_map (λ l. l.key) (slice_get self.now.loaded number) }
    {
        let (key, _) = self.documents.get_index(number as usize)?;
        Some(key)
    }

    /// The tileset of a number, where there is one and it is read. It takes no memory.
    pub fn document(&self, number: u32) -> Option<&Document>
        ensures tiles { option_map (λ d. d.now.rows) result
            ≡ option_and_then rows_of (slice_get self.now.loaded number) }
        ensures named { (address : List ℕ)
            → number_in self.now (tileset_key address) ≡ Some number
            → option_map (λ d. d.now.rows) result ≡ rows_at (docs self.now) address }
        ensures schema { IfSome result
            (λ d. Some d.now.schema ≡ option_map schema_of (slice_get self.now.loaded number)) }
        ensures schema_at { (address : List ℕ)
            → option_map (λ l. l.key) (slice_get self.now.loaded number)
            ≡ Some (tileset_key address)
            → IfSome result (λ d. d.now.schema ≡ schema_at (docs self.now) address) }
    {
        self.numbered(number)?.reading.tileset()
    }

    /// The subtree of a number, where there is one and it is read. It takes no memory.
    pub fn subtree_at(&self, number: u32) -> Option<&Subtree>
        ensures value { option_map (λ s. s.now) result
            ≡ option_and_then subtree_of (slice_get self.now.loaded number) }
        ensures named { (key : Key) → number_in self.now key ≡ Some number
            → option_map (λ s. s.now) result ≡ here_of (subtree_at (docs self.now) key) }
        ensures counts { IfSome result (λ s. (octree : Bool) (levels contents : ℕ)
            → option_map (λ l. l.key.kind) (slice_get self.now.loaded number)
            ≡ Some (kind.Subtree octree levels contents)
            → HasCounts octree levels contents s.now) }
    {
        self.numbered(number)?.reading.subtree()
    }

    /// What is loaded under a number.
    fn numbered(&self, number: u32) -> Option<&LoadedDocument>
        ensures { MatchOption result (slice_get self.now.loaded number ≡ None)
            (λ l. IsNumbered self.now number l.now) }
    {
        let (_, loaded) = self.documents.get_index(number as usize)?;
        Some(loaded)
    }
}

impl Subtrees for DocStore {
    ghost found = { λ store. subtree_at (docs store) };

    /// The subtree of a key, where it is read. It takes no memory.
    fn subtree(&self, key: &Key) -> Option<&Subtree> {
        self.loaded_for(key)?.reading.subtree()
    }

    /// Whether nothing comes of a subtree's key: it is absent, or its bytes are refused. It takes
    /// no memory.
    fn lost(&self, key: &Key) -> bool {
        match self.loaded_for(key) {
            Some(loaded) => loaded.reading.subtree().is_none(),
            None => self.absent.contains(key),
        }
    }
}

/// A store of the root document, which is read.
fn store_of(
    alloc: Global,
    root: &Text,
    bytes: Bytes,
    document: Document,
) -> Result<DocStore, AllocError>
    requires address { IsAddress root.now }
    requires within { length bytes ≤ DOCUMENT_LIMIT }
    requires tiles { Some document.rows ≡ rows_in root.now bytes }
    requires schema { document.schema ≡ schema bytes }
    ensures { IfOk result (λ store. IsAlone store root.now bytes) }
{
    let total = bytes.len() as u64;
    let mut documents = IndexMap::new(alloc);
    let key = Key {
        kind: Kind::Tileset,
        address: root.copy(alloc)?,
    };
    let loaded = LoadedDocument {
        bytes,
        reading: Reading::Tileset(document),
    };
    documents.insert(key, loaded)?;
    Ok(DocStore {
        documents,
        absent: IndexSet::new(alloc),
        total,
    })
}
