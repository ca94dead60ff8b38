//! The engine on one thread.

ghost use Rattle.std.specs.Prelude.{◌↔◌, IsOk, ◌≡◌, ◌≤◌, ◌<◌, ◌+◌, ◌++◌, ◌∷◌, [], true, false, if◌then◌else◌, IfErr, IfOk, IsTrue, OnErr, OnOk, length};
ghost use Rattle.doc_store.specs.declared.limits.TheConstants.{DOCUMENT_LIMIT};
ghost use Rattle.loader_gate.specs.Outcomes.{IsGot};
ghost use Rattle.engine_state.specs.Frames.{is_held};
ghost use Rattle.engine_state.specs.Journal.{legal, replay};
ghost use Rattle.engine_state.specs.Loading.{flies};
ghost use Rattle.engine_core.specs.Arriving.{MayEnd, entry_of};
ghost use Rattle.engine_core.specs.Journals.{MayGoOn};
ghost use Rattle.engine_core.specs.Looking.{IsNextFrame, IsSettledFrame, RefusesLook, RefusesSettled, looked};
ghost use Rattle.engine_core.specs.Opening.{RefusesOpening};
ghost use Rattle.engine_core.specs.Taking.{IsBestJob, RefusesRetry, RefusesTake};

use crate::error::{LookError, OpenError, RetryError, TakeError};
use crate::open::open_parts;
use crate::parts::Parts;
use bytes::Bytes;
use content_digest::Content;
use engine_state::{Entry, Gone, JournalList};
use error_test::View;
use frame_pins::Frame;
use loader_gate::Outcome;
use std::alloc::{AllocError, Global};
use std::marker::Model;
use tile_types::{Job, Order};
use tile_uri::Address;

/// An engine that is used by one thread: what it does is told by its journal, to which each call
/// adds the entry that it is described with, or none where it is refused. The answers are functions
/// of the journal before them. Want of memory leaves the journal as it was.
///
/// `pass` is the number of the pass that calls, and is noted in the entry.
#[derive(Drop)]
pub struct Core {
    parts: Parts,
}

impl Model for Core {
    ghost use Rattle.engine_core.specs.Engine.{Engine};
    ghost use Rattle.engine_core.specs.Mirrors.{Lives};

    ghost Value = { Engine };

    ghost view = { λ c. record { journal = c.parts.entries.items; room = c.parts.room } };

    ghost invariant = { λ c. Lives c.parts };
}

/// A job and its bytes are handed back where they were refused.
fn hand_back(
    arrived: Result<(), AllocError>,
    job: Job,
    content: Content,
) -> Result<(), (AllocError, Job, Outcome)>
    ensures arrived { IsOk result ↔ IsOk arrived }
    ensures handed_back { IfErr result (λ e. (e.1 ≡ job) × (e.2 ≡ Outcome.Got content)) }
{
    match arrived {
        Ok(()) => Ok(()),
        Err(error) => Err((error, job, Outcome::Got(content))),
    }
}

impl Core {
    /// Opens an engine with the root document, its address and its bytes, a budget for the bytes of
    /// the resident contents, the order in which wants are loaded, and room for so many entries of
    /// the journal. Notes `Opened`.
    ///
    /// Errors: `Document` where the document isn't read (OGC 22-025r4, "Tileset JSON"), with the
    /// first cause, or `OutOfMemory`.
    pub fn open(
        alloc: Global,
        root: &Address,
        bytes: Bytes,
        budget: u64,
        order: Order,
        room: u32,
    ) -> Result<Core, OpenError>
        requires { length bytes ≤ DOCUMENT_LIMIT }
        ensures journal { IfOk result (λ core. core.journal
            ≡ Entry.Opened root.now bytes budget order ∷ []) }
        ensures room { IfOk result (λ core. core.room ≡ room) }
        ensures refused { IfErr result (RefusesOpening root.now bytes) }
    {
        let parts = open_parts(alloc, root, bytes, budget, order, room)?;
        Ok(Core { parts })
    }

    /// Takes the best key for a pass: its bytes are to be fetched, and from then on it flies. Notes
    /// `Taken`.
    ///
    /// Errors: `Closed`, `JournalFull`, `Idle` where nothing may be taken, or `OutOfMemory`.
    pub fn take(&mut self, alloc: Global, pass: u32) -> Result<Job, TakeError>
        ensures job { IfOk result (IsBestJob self.old.journal pass) }
        ensures journal { IfOk result (λ job. self.new.journal
            ≡ self.old.journal ++ Entry.Taken pass job.key ∷ []) }
        ensures flies { IfOk result (λ job. IsTrue (flies (replay self.new.journal) pass job.key)) }
        ensures within { OnOk result (MayGoOn self.old.journal self.old.room) }
        ensures refused { IfErr result (RefusesTake self.old.journal self.old.room) }
        ensures room { self.new.room ≡ self.old.room }
        ensures err { OnErr result (self.new ≡ self.old) }
    {
        if self.parts.closed {
            return Err(TakeError::Closed);
        }
        if self.parts.is_full() {
            let entries = self.parts.entries.len() as u64;
            return Err(TakeError::JournalFull { entries });
        }
        match self.parts.take(alloc, pass)? {
            Some(job) => Ok(job),
            None => Err(TakeError::Idle),
        }
    }

    /// Ends the flight of a job's key, and notes what came of it: of bytes `ContentArrived` or
    /// `Squeezed`, `DocumentArrived` or `Absent`, else `Absent`, `Failed` or `Starved`.
    ///
    /// Errors: bytes alone can be refused, where there is no memory to keep them, and are handed
    /// back with the job.
    pub fn arrive(
        &mut self,
        alloc: Global,
        pass: u32,
        job: Job,
        outcome: Outcome,
    ) -> Result<(), (AllocError, Job, Outcome)>
        requires flies { IsTrue (flies (replay self.old.journal) pass job.key) }
        requires may { MayEnd (replay self.old.journal) pass job.key outcome }
        ensures journal { OnOk result (self.new.journal ≡ self.old.journal
            ++ entry_of (replay self.old.journal) pass job.key outcome ∷ []) }
        ensures room { self.new.room ≡ self.old.room }
        ensures err { OnErr result (self.new ≡ self.old) }
        ensures handed_back { IfErr result (λ e. (e.1 ≡ job) × (e.2 ≡ outcome)) }
        ensures only_bytes { OnErr result (IsGot outcome) }
    {
        match outcome {
            Outcome::Got(content) => {
                let arrived = self.parts.arrive_bytes(alloc, pass, &job.key, &content);
                hand_back(arrived, job, content)
            }
            Outcome::Missing => {
                self.parts.add_absent(pass, job.key, Gone::Missing);
                Ok(())
            }
            Outcome::TooLong => {
                self.parts.add_absent(pass, job.key, Gone::TooLong);
                Ok(())
            }
            Outcome::Failed { count } => {
                self.parts.add_failed(pass, job.key, count);
                Ok(())
            }
            Outcome::Starved => {
                self.parts.add_starved(pass, job.key);
                Ok(())
            }
        }
    }

    /// Shows a viewer the cut of a view over what is loaded and resident (OGC 22-025r4,
    /// "Refinement"). The frame's contents stay resident until it is given back. Notes `Looked`, or
    /// `LookRefused` where the view can't be shown.
    ///
    /// Errors: `Closed`, `JournalFull`, `Refused` where 64 frames are held or the view visits too
    /// many nodes, or `OutOfMemory`.
    pub fn look(
        &mut self,
        alloc: Global,
        pass: u32,
        viewer: u8,
        view: View,
    ) -> Result<Frame, LookError>
        ensures frame { IfOk result (IsNextFrame self.old.journal viewer view) }
        ensures journal { OnOk result (self.new.journal ≡ self.old.journal
            ++ looked self.old.journal pass viewer view false ∷ []) }
        ensures held { IfOk result (λ frame.
            IsTrue (is_held (replay self.new.journal).frames frame.id)) }
        ensures within { OnOk result (MayGoOn self.old.journal self.old.room) }
        ensures refused { IfErr result (RefusesLook self.old.journal self.new.journal
            self.old.room pass viewer view) }
        ensures room { self.new.room ≡ self.old.room }
    {
        if self.parts.closed {
            return Err(LookError::Closed);
        }
        if self.parts.is_full() {
            let entries = self.parts.entries.len() as u64;
            return Err(LookError::JournalFull { entries });
        }
        self.parts.show(alloc, pass, viewer, view, false)
    }

    /// Shows a viewer the cut of its latest view, once nothing is left to load. Notes what `look`
    /// notes.
    ///
    /// Errors: those of `look`, `NoView` where the viewer didn't look yet, and `NotSettled` where a
    /// key is being fetched or may be taken.
    pub fn look_settled(&mut self, alloc: Global, pass: u32, viewer: u8) -> Result<Frame, LookError>
        ensures frame { IfOk result (IsSettledFrame self.old.journal viewer) }
        ensures journal { IfOk result (λ frame. self.new.journal ≡ self.old.journal
            ++ looked self.old.journal pass viewer frame.view true ∷ []) }
        ensures held { IfOk result (λ frame.
            IsTrue (is_held (replay self.new.journal).frames frame.id)) }
        ensures within { OnOk result (MayGoOn self.old.journal self.old.room) }
        ensures refused { IfErr result (RefusesSettled self.old.journal self.new.journal
            self.old.room pass viewer) }
        ensures room { self.new.room ≡ self.old.room }
    {
        if self.parts.closed {
            return Err(LookError::Closed);
        }
        if self.parts.is_full() {
            let entries = self.parts.entries.len() as u64;
            return Err(LookError::JournalFull { entries });
        }
        self.parts.show_settled(alloc, pass, viewer)
    }

    /// Takes a frame back that is held, and spends it. Notes `Returned`. It takes no memory.
    pub fn give_back(&mut self, pass: u32, frame: Frame)
        requires { IsTrue (is_held (replay self.old.journal).frames frame.id) }
        ensures journal { self.new.journal
            ≡ self.old.journal ++ Entry.Returned pass frame.id ∷ [] }
        ensures room { self.new.room ≡ self.old.room }
    {
        let id = frame.id();
        frame.spend();
        self.parts.add_returned(pass, id);
    }

    /// Lets what failed, and what found no room, be taken again. Notes `Retried`.
    ///
    /// Errors: `Closed`, `JournalFull`, or `OutOfMemory`.
    pub fn retry(&mut self, pass: u32) -> Result<(), RetryError>
        ensures journal { OnOk result (self.new.journal
            ≡ self.old.journal ++ Entry.Retried pass ∷ []) }
        ensures within { OnOk result (MayGoOn self.old.journal self.old.room) }
        ensures refused { IfErr result (RefusesRetry self.old.journal self.old.room) }
        ensures room { self.new.room ≡ self.old.room }
        ensures err { OnErr result (self.new ≡ self.old) }
    {
        if self.parts.closed {
            return Err(RetryError::Closed);
        }
        if self.parts.is_full() {
            let entries = self.parts.entries.len() as u64;
            return Err(RetryError::JournalFull { entries });
        }
        Ok(self.parts.retry(pass)?)
    }

    /// Closes the engine, unless it is closed. Notes `Closed`. It takes no memory.
    pub fn close(&mut self, pass: u32)
        ensures journal { self.new.journal ≡ (if (replay self.old.journal).closed
            then self.old.journal else self.old.journal ++ Entry.Closed pass ∷ []) }
        ensures room { self.new.room ≡ self.old.room }
    {
        if !self.parts.closed {
            self.parts.add_closed(pass);
        }
    }

    /// The journal, which is legal.
    pub fn journal(&self) -> &[Entry]
        ensures journal { result.now ≡ self.now.journal }
        ensures legal { IsTrue (legal self.now.journal) }
    {
        self.parts.entries.as_slice()
    }

    /// Ends the engine, and gives its journal, which is legal. It adds no entry, and takes no
    /// memory.
    pub fn finish(self) -> JournalList
        ensures journal { result ≡ self.journal }
        ensures legal { IsTrue (legal self.journal) }
    {
        self.parts.entries.into_list()
    }
}
