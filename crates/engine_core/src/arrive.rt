//! Bytes come.

ghost use Rattle.std.specs.Prelude.{◌≡◌, ◌≤◌, ◌++◌, ◌∷◌, [], false, IfOk, IsTrue, OnErr, OnOk, length};
ghost use Rattle.doc_store.specs.Docs.{is_content};
ghost use Rattle.doc_store.specs.declared.limits.TheConstants.{DOCUMENT_LIMIT};
ghost use Rattle.engine_state.specs.Loading.{flies};
ghost use Rattle.engine_state.specs.Agreement.{limit_of};
ghost use Rattle.engine_core.specs.Arriving.{content_entry, document_entry, entry_of};
ghost use Rattle.loader_gate.specs.declared.outcome.Outcome.TheVariants as Outcome;
ghost use Rattle.engine_core.specs.Mirrors.{KnowsRoom, Lives, SameJournal, state_of};

use crate::flights::end_flight;
use crate::keeping::KeptByViews;
use crate::parts::Parts;
use bytes::Bytes;
use content_digest::Content;
use doc_store::Added;
use engine_state::{Entry, Gone};
use std::alloc::{AllocError, Global};
use tile_cache::AdmitError;
use tile_types::{Key, Kind, Text};

/// The same bytes for one more owner.
fn share(bytes: &Bytes) -> Result<Bytes, AllocError>
    ensures { IfOk result (λ shared. shared ≡ bytes.now) }
{
    Ok(bytes.slice(..)?)
}

impl Parts {
    /// Makes sure that it is known what views keep, where something may have to go for so many
    /// bytes.
    fn know_room(&mut self, alloc: Global, length: u64) -> Result<(), AllocError>
        requires { Lives self.old }
        ensures lives { Lives self.new }
        ensures same { SameJournal self.old self.new }
        ensures knows { OnOk result (KnowsRoom length self.new) }
    {
        if self.cache.has_room(length) {
            return Ok(());
        }
        self.note(alloc)
    }

    /// Notes that the content of a key came, whose address is given once more: it becomes resident,
    /// or is squeezed.
    fn add_content(
        &mut self,
        alloc: Global,
        pass: u32,
        key: &Key,
        address: Text,
        content: &Content,
    ) -> Result<(), AllocError>
        requires lives { Lives self.old }
        requires knows { KnowsRoom (length content.now) self.old }
        requires flies { IsTrue (flies (state_of self.old) pass key.now) }
        requires content { IsTrue (is_content key.now) }
        requires address { address ≡ key.now.address }
        ensures lives { Lives self.new }
        ensures journal { OnOk result (self.new.entries.items ≡ self.old.entries.items
            ++ content_entry (state_of self.old) pass key.now content.now ∷ []) }
        ensures err { OnErr result (SameJournal self.old self.new) }
        ensures room { self.new.room ≡ self.old.room }
    {
        engine_state::laws::what_flies_is_to_load();
        engine_state::laws::what_is_to_load_is_missing();
        engine_state::laws::residents_are_there_once();
        let length = content.bytes().len() as u64;
        let digest = *content.digest();
        let shared = content.share()?;
        let keeping = KeptByViews { notes: &self.notes };
        match self.cache.admit(alloc, &key.address, shared, &keeping) {
            Ok(evicted) => {
                end_flight(&mut self.flying, pass, key);
                self.noted = false;
                self.filled = false;
                self.entries.push_reserved(Entry::ContentArrived {
                    pass,
                    address,
                    length,
                    digest,
                    evicted,
                });
                Ok(())
            }
            Err(AdmitError::Squeezed { .. }) => {
                let flown = end_flight(&mut self.flying, pass, key);
                self.squeezed.push_reserved(flown);
                self.filled = false;
                self.entries.push_reserved(Entry::Squeezed {
                    pass,
                    address,
                    length,
                });
                Ok(())
            }
            Err(AdmitError::OutOfMemory) => Err(AllocError),
        }
    }

    /// The content of a key comes.
    pub(crate) fn arrive_content(
        &mut self,
        alloc: Global,
        pass: u32,
        key: &Key,
        content: &Content,
    ) -> Result<(), AllocError>
        requires lives { Lives self.old }
        requires flies { IsTrue (flies (state_of self.old) pass key.now) }
        requires content { IsTrue (is_content key.now) }
        ensures lives { Lives self.new }
        ensures journal { OnOk result (self.new.entries.items ≡ self.old.entries.items
            ++ content_entry (state_of self.old) pass key.now content.now ∷ []) }
        ensures err { OnErr result (SameJournal self.old self.new) }
        ensures room { self.new.room ≡ self.old.room }
    {
        let address = key.address.copy(alloc)?;
        self.know_room(alloc, content.bytes().len() as u64)?;
        self.add_content(alloc, pass, key, address, content)
    }

    /// The document of a key comes: it is loaded, or the store has no room for it.
    pub(crate) fn arrive_document(
        &mut self,
        alloc: Global,
        pass: u32,
        key: &Key,
        bytes: &Bytes,
    ) -> Result<(), AllocError>
        requires lives { Lives self.old }
        requires flies { IsTrue (flies (state_of self.old) pass key.now) }
        requires document { is_content key.now ≡ false }
        requires within { length bytes.now ≤ DOCUMENT_LIMIT }
        ensures lives { Lives self.new }
        ensures journal { OnOk result (self.new.entries.items ≡ self.old.entries.items
            ++ document_entry (state_of self.old) pass key.now bytes.now ∷ []) }
        ensures err { OnErr result (SameJournal self.old self.new) }
        ensures room { self.new.room ≡ self.old.room }
    {
        engine_state::laws::what_flies_is_to_load();
        engine_state::laws::what_is_to_load_is_missing();
        let loaded = key.copy(alloc)?;
        let noted = key.copy(alloc)?;
        let stored = share(bytes)?;
        let kept = share(bytes)?;
        match self.arena.add(alloc, loaded, stored)? {
            Added::Kept => {
                end_flight(&mut self.flying, pass, key);
                self.noted = false;
                self.filled = false;
                self.entries.push_reserved(Entry::DocumentArrived {
                    pass,
                    key: noted,
                    bytes: kept,
                });
                Ok(())
            }
            Added::Full => {
                self.add_absent(pass, noted, Gone::StoreFull);
                Ok(())
            }
        }
    }

    /// The bytes of a key come, within the limit of its kind.
    pub(crate) fn arrive_bytes(
        &mut self,
        alloc: Global,
        pass: u32,
        key: &Key,
        content: &Content,
    ) -> Result<(), AllocError>
        requires lives { Lives self.old }
        requires flies { IsTrue (flies (state_of self.old) pass key.now) }
        requires within { length content.now ≤ limit_of key.now }
        ensures lives { Lives self.new }
        ensures journal { OnOk result (self.new.entries.items ≡ self.old.entries.items
            ++ entry_of (state_of self.old) pass key.now (Outcome.Got content.now) ∷ []) }
        ensures err { OnErr result (SameJournal self.old self.new) }
        ensures room { self.new.room ≡ self.old.room }
    {
        match key.kind {
            Kind::Content => self.arrive_content(alloc, pass, key, content),
            Kind::Tileset | Kind::Subtree { .. } => {
                self.arrive_document(alloc, pass, key, content.bytes())
            }
        }
    }
}
