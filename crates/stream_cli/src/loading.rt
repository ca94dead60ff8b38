//! Loading documents from a source into a store.

ghost use Rattle.std.specs.Prelude.{Contains, ◌≡◌, ◌<◌, ◌≤◌, IfErr, IfOk, IsTrue, OnOk, Option, length};
ghost use Rattle.doc_store.specs.Docs.{is_unread};
ghost use Rattle.doc_store.specs.Store.{IsDocumentKind, IsOpened, docs};
ghost use Rattle.doc_store.specs.declared.limits.TheConstants.{DOCUMENT_LIMIT};
ghost use Rattle.source_port.specs.Library.{Library};
ghost use Rattle.stream_cli.specs.Loading.{IsFetched, Opens};
ghost use Rattle.stream_cli.specs.Sides.{source_run};
ghost use Rattle.stream_cli.specs.Steps.{AsksFor, IsLoadCause, IsOpenCause, IsReadCause, LoadsOn};
ghost use Rattle.stream_cli.specs.declared.cause.Cause.TheVariants.{Memory};

use crate::cause::Cause;
use bytes::Bytes;
use doc_store::{Added, DOCUMENT_LIMIT, DocState, DocStore, is_document_kind};
use source_port::Source;
use std::alloc::Global;
use tile_types::Key;
use tile_uri::Address;

/// Fetches the root document and opens a store of it, or answers what the run ends with.
pub fn open_store<S: Source>(
    alloc: Global,
    root: &Address,
    source: &mut S,
) -> Result<DocStore, Cause>
    ensures opened { IfOk result (Opens root.now
        (source_run S.library S.faults S.fetches source.old source.new)) }
    ensures refused { IfErr result (IsOpenCause root.now
        (source_run S.library S.faults S.fetches source.old source.new)) }
    ensures library { S.library source.new ≡ S.library source.old }
{
    let mut bytes = Vec::new(alloc);
    match source.fetch(alloc, root.text().as_str(), DOCUMENT_LIMIT, &mut bytes) {
        Ok(()) => read_root(alloc, root, bytes),
        Err(error) => Err(Cause::of_root(error, source.faults())),
    }
}

/// A store of the root document.
fn read_root(alloc: Global, root: &Address, bytes: Vec<u8>) -> Result<DocStore, Cause>
    requires { length bytes.items ≤ DOCUMENT_LIMIT }
    ensures opened { IfOk result (λ store. IsOpened store root.now bytes.items) }
    ensures refused { IfErr result (λ cause. IsReadCause root.now bytes.items cause) }
{
    let Ok(bytes) = Bytes::from_vec(bytes) else {
        return Err(Cause::Memory);
    };
    match DocStore::open(alloc, root, bytes) {
        Ok(store) => Ok(store),
        Err(error) => Err(Cause::of_document(error)),
    }
}

/// Fetches the documents of these keys, in order, but for those of which something is known.
pub fn load_all<S: Source>(
    alloc: Global,
    keys: &[Key],
    source: &mut S,
    store: &mut DocStore,
) -> Result<(), Cause>
    ensures loads { OnOk result (LoadsOn
        (source_run S.library S.faults S.fetches source.old source.new) (Contains keys.now)
        store.old store.new) }
    ensures stops { IfErr result (IsLoadCause
        (source_run S.library S.faults S.fetches source.old source.new)) }
    ensures library { S.library source.new ≡ S.library source.old }
{
    for key in keys {
        match load(alloc, key, source, store) {
            Ok(()) => {}
            Err(cause) => return Err(cause),
        }
    }
    Ok(())
}

/// Fetches the document of a key, unless something is known of it. A key that the source has
/// nothing for, or more than a document may have, is absent from then on, and so is one for which
/// the store has no room.
fn load<S: Source>(
    alloc: Global,
    key: &Key,
    source: &mut S,
    store: &mut DocStore,
) -> Result<(), Cause>
    ensures loads { OnOk result (LoadsOn
        (source_run S.library S.faults S.fetches source.old source.new) (λ k. k ≡ key.now)
        store.old store.new) }
    ensures stops { IfErr result (IsLoadCause
        (source_run S.library S.faults S.fetches source.old source.new)) }
    ensures library { S.library source.new ≡ S.library source.old }
{
    if !is_document_kind(key.kind) || store.state_of(key) != DocState::NotLoaded {
        return Ok(());
    }
    let Ok(key) = key.copy(alloc) else {
        return Err(Cause::Memory);
    };
    if store.reserve(1).is_err() {
        return Err(Cause::Memory);
    }
    let mut bytes = Vec::new(alloc);
    match source.fetch(alloc, key.address.as_str(), DOCUMENT_LIMIT, &mut bytes) {
        Ok(()) => keep(alloc, key, bytes, store),
        Err(error) => match Cause::of_load(error, source.faults()) {
            None => {
                store.mark_absent(key);
                Ok(())
            }
            Some(cause) => Err(cause),
        },
    }
}

/// Keeps the bytes of a document, or marks it as absent where the store has no room for them.
fn keep(alloc: Global, key: Key, bytes: Vec<u8>, store: &mut DocStore) -> Result<(), Cause>
    requires document { IsDocumentKind key.kind }
    requires unread { IsTrue (is_unread (docs store.old) key) }
    requires within { length bytes.items ≤ DOCUMENT_LIMIT }
    requires room { 0 < store.old.spare }
    ensures asks { OnOk result ((library : Option Library)
        → IsFetched library key.address bytes.items
        → AsksFor library (λ k. k ≡ key) store.old store.new 1) }
    ensures memory { IfErr result (λ cause. cause ≡ Memory) }
{
    if store.is_full(bytes.len()) {
        store.mark_absent(key);
        return Ok(());
    }
    let Ok(bytes) = Bytes::from_vec(bytes) else {
        return Err(Cause::Memory);
    };
    match store.add(alloc, key, bytes) {
        Ok(Added::Kept) => Ok(()),
        Ok(Added::Full) => unreachable!(),
        Err(_) => Err(Cause::Memory),
    }
}
