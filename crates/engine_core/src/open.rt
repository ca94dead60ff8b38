//! An engine is opened.

ghost use Rattle.std.specs.Prelude.{◌≡◌, ◌≤◌, ◌∷◌, [], IfErr, IfOk, length, true};
ghost use Rattle.doc_store.specs.Store.{IsOpened};
ghost use Rattle.doc_store.specs.declared.limits.TheConstants.{DOCUMENT_LIMIT};
ghost use Rattle.tile_uri.specs.Addresses.{is_address};
ghost use Rattle.tile_uri.specs.declared.address.TheConstants.{ADDRESS_LIMIT};
ghost use Rattle.engine_core.specs.Mirrors.{Lives};
ghost use Rattle.engine_core.specs.Opening.{RefusesOpening};

use crate::error::OpenError;
use crate::parts::Parts;
use bytes::Bytes;
use doc_store::DocStore;
use engine_state::Entry;
use indexmap::IndexSet;
use lists::RoomList;
use load_queue::{OrderRank, RankedQueue};
use std::alloc::{AllocError, Global};
use tile_arena::Arena;
use tile_cache::Cache;
use tile_types::{Order, Text};
use tile_uri::Address;
use tileset_schema::DocumentError;

/// The store of the root document.
fn open_store(alloc: Global, root: &Address, bytes: Bytes) -> Result<DocStore, OpenError>
    requires { length bytes ≤ DOCUMENT_LIMIT }
    ensures ok { IfOk result (λ store. IsOpened store root.now bytes) }
    ensures refused { IfErr result (RefusesOpening root.now bytes) }
{
    match DocStore::open(alloc, root, bytes) {
        Ok(store) => Ok(store),
        Err(DocumentError::OutOfMemory) => Err(OpenError::OutOfMemory),
        Err(error) => Err(OpenError::Document { error }),
    }
}

/// The parts of an engine that was just opened with a store.
fn parts_of(
    alloc: Global,
    store: DocStore,
    root: Text,
    bytes: Bytes,
    budget: u64,
    order: Order,
    room: u32,
) -> Result<Parts, AllocError>
    requires opened { IsOpened store root bytes }
    requires address { is_address root ≡ true }
    requires short { length root ≤ ADDRESS_LIMIT }
    requires within { length bytes ≤ DOCUMENT_LIMIT }
    ensures lives { IfOk result Lives }
    ensures journal { IfOk result (λ parts. parts.entries.items
        ≡ Entry.Opened root bytes budget order ∷ []) }
    ensures room { IfOk result (λ parts. parts.room ≡ room) }
{
    let arena = Arena::new(alloc, store)?;
    let cache = Cache::new(alloc, budget)?;
    let mut entries = RoomList::new(alloc);
    // The second entry closes the engine.
    entries.reserve(2)?;
    entries.push_reserved(Entry::Opened {
        root,
        bytes,
        budget,
        order,
    });
    Ok(Parts {
        entries,
        room,
        closed: false,
        looks: 0,
        views: Vec::new(alloc),
        frames: RoomList::new(alloc),
        flying: RoomList::new(alloc),
        attempts: RoomList::new(alloc),
        squeezed: RoomList::new(alloc),
        absent: IndexSet::new(alloc),
        arena,
        cache,
        notes: Vec::new(alloc),
        noted: false,
        queue: RankedQueue::new(alloc, order, OrderRank { order }),
        filled: false,
    })
}

/// The parts of an engine that is opened with a root document.
pub(crate) fn open_parts(
    alloc: Global,
    root: &Address,
    bytes: Bytes,
    budget: u64,
    order: Order,
    room: u32,
) -> Result<Parts, OpenError>
    requires { length bytes ≤ DOCUMENT_LIMIT }
    ensures lives { IfOk result Lives }
    ensures journal { IfOk result (λ parts. parts.entries.items
        ≡ Entry.Opened root.now bytes budget order ∷ []) }
    ensures room { IfOk result (λ parts. parts.room ≡ room) }
    ensures refused { IfErr result (RefusesOpening root.now bytes) }
{
    let kept = bytes.slice(..)?;
    let store = open_store(alloc, root, kept)?;
    let address = root.text().copy(alloc)?;
    Ok(parts_of(alloc, store, address, bytes, budget, order, room)?)
}
