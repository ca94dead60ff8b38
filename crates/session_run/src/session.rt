//! A session: an engine that obeys the lines of a script.

ghost use Rattle.std.specs.Prelude.{◌≡◌, ◌≤◌, ◌<◌, ◌⊎◌, ◌++◌, ◌∷◌, [], IfErr, IfOk, IsTrue, OnOk, ◌==◌, false, find, length, position, true};
ghost use Rattle.std.specs.Vec.{vec_capacity, vec_len};
ghost use Rattle.source_port.specs.Library.{HasBytes};
ghost use Rattle.doc_store.specs.declared.limits.TheConstants.{DOCUMENT_LIMIT};
ghost use Rattle.loader_gate.specs.Outcomes.{latest_count};
ghost use Rattle.frame_text.specs.Lines.{lines_of};
ghost use Rattle.engine_state.specs.Agreement.{Agrees};
ghost use Rattle.engine_state.specs.After.{without_first};
ghost use Rattle.engine_state.specs.Journal.{legal, replay};
ghost use Rattle.engine_core.specs.Looking.{latest_view};
ghost use Rattle.engine_core.specs.Opening.{RefusesOpening};
ghost use Rattle.session_run.specs.Desks.{IsIdle};
ghost use Rattle.session_run.specs.Loading.{Loads, counts_in};
ghost use Rattle.session_run.specs.Obeying.{GoesBack, HasLooked, LooksAgain, Obeys, ending, oldest};
ghost use Rattle.session_run.specs.declared.own_frame.OwnFrame.{OwnFrame};
ghost use Rattle.session_run.specs.Sessions.{AreReported, AreThoseHeld, IsCauseAt, IsSameBut, StopsAt};

use crate::desk::CoreDesk;
use crate::error::SessionError;
use crate::own_frame::OwnFrame;
use bytes::Bytes;
use engine_core::{Core, LookError, OpenError, RetryError};
use engine_state::{Entry, JournalList};
use error_test::View;
use frame_pins::Frame;
use frame_text::{frame_text, refused_text};
use session_script::ScriptLine;
use source_port::{LibraryName, Source};
use std::alloc::{AllocError, Global};
use std::marker::Model;
use tile_types::{Order, Text, TextList};
use tile_uri::Address;

/// How many entries the journal of a session may have.
pub const JOURNAL_ROOM: u32 = 1_048_576;

/// An engine that one thread uses to obey the lines of a script: it loads what views want, and gives
/// the text of each frame and each refusal. Contracts see the engine's journal and its room, and the
/// library that is loaded from, where it is told.
pub struct Session<N: LibraryName> {
    desk: CoreDesk<N>,
    /// The frames that are held, by rising number.
    frames: Vec<OwnFrame>,
}

impl<N: LibraryName> Model for Session<N> {
    ghost use Rattle.std.specs.Prelude.{◌≡◌, []};
    ghost use Rattle.engine_state.specs.Journal.{replay};
    ghost use Rattle.session_run.specs.Sessions.{AreThoseHeld, IsSession, SessionParts};

    ghost Value = { SessionParts };

    ghost view = { λ s. record {
      journal = s.desk.engine.journal;
      room = s.desk.engine.room;
      library = s.desk.library;
    } };

    ghost invariant = { λ s. IsSession s.desk.engine.journal s.frames.items };
}

/// Holds a frame, for which there is room, and answers its lines.
fn hold(alloc: Global, frames: &mut Vec<OwnFrame>, frame: Frame) -> Result<TextList, AllocError>
    requires { vec_len frames.old < vec_capacity frames.old }
    ensures texts { IfOk result (λ texts. texts ≡ lines_of frame) }
    ensures held { let own : OwnFrame = record { frame = frame } in
        frames.new.items ≡ frames.old.items ++ own ∷ [] }
{
    let texts = frame_text(alloc, &frame);
    match frames.push(OwnFrame { frame }) {
        Ok(()) => {}
        Err(_) => unreachable!(),
    }
    texts
}

/// Where the first of a viewer's frames stands, if there is one.
fn place_of(frames: &[OwnFrame], viewer: u8) -> Option<usize>
    ensures { result ≡ position (λ own. own.frame.viewer == viewer) frames.now }
{
    frames.iter().position(|own| own.frame.viewer() == viewer)
}

/// Takes the first of a viewer's frames out, if there is one. It takes no memory.
fn take_oldest(frames: &mut Vec<OwnFrame>, viewer: u8) -> Option<OwnFrame>
    ensures found { result ≡ find (λ own. own.frame.viewer == viewer) frames.old.items }
    ensures rest { frames.new.items
        ≡ without_first (λ own. own.frame.viewer == viewer) frames.old.items }
{
    match place_of(frames, viewer) {
        Some(at) => Some(frames.remove(at)),
        None => None,
    }
}

/// Gives all frames back that an engine's state holds, by rising number. It takes no memory.
fn give_all_back<N: LibraryName>(desk: &mut CoreDesk<N>, frames: Vec<OwnFrame>)
    requires held { AreThoseHeld frames.items desk.old.engine.journal }
    ensures journal { desk.new.engine.journal ++ Entry.Closed 0 ∷ []
        ≡ desk.old.engine.journal ++ ending (replay desk.old.engine.journal) }
    ensures library { desk.new.library ≡ desk.old.library }
{
    for own in frames {
        desk.give_back(own.into_frame());
    }
}

/// A list of one text.
fn one_text(alloc: Global, text: Text) -> Result<TextList, AllocError>
    ensures { IfOk result (λ texts. texts ≡ text ∷ []) }
{
    let mut texts = TextList::new(alloc);
    texts.push(text)?;
    Ok(texts)
}

impl<N: LibraryName> Session<N> {
    /// Opens an engine with the root document, its address and its bytes, which the named library
    /// has there where it is told, a budget for the bytes of the resident contents, and the order in
    /// which wants are loaded.
    ///
    /// Errors: those of `Core::open`.
    pub fn open(
        alloc: Global,
        name: N,
        root: &Address,
        bytes: Bytes,
        budget: u64,
        order: Order,
    ) -> Result<Session<N>, OpenError>
        requires within { length bytes ≤ DOCUMENT_LIMIT }
        requires is_there { HasBytes (N.library name) root.now bytes }
        ensures journal { IfOk result (λ session. session.journal
            ≡ Entry.Opened root.now bytes budget order ∷ []) }
        ensures room { IfOk result (λ session. session.room ≡ JOURNAL_ROOM) }
        ensures library { IfOk result (λ session. session.library ≡ N.library name) }
        ensures refused { IfErr result (RefusesOpening root.now bytes) }
    {
        let core = Core::open(alloc, root, bytes, budget, order, JOURNAL_ROOM)?;
        Ok(Session {
            desk: CoreDesk::new(alloc, core, name),
            frames: Vec::new(alloc),
        })
    }

    /// Obeys a line before the end, and answers what is reported of it, line by line. What views
    /// want is loaded from the source, where the line asks for that.
    ///
    /// Errors: `JournalFull`, or `OutOfMemory`, behind which the line may have been obeyed although
    /// nothing was answered.
    pub fn obey<S: Source>(
        &mut self,
        alloc: Global,
        source: &mut S,
        line: &ScriptLine,
    ) -> Result<TextList, SessionError>
        requires one_library { S.library source.old ≡ self.old.library }
        requires counted { latest_count (counts_in self.old.journal) ≤ S.faults source.old }
        ensures obeyed { OnOk result (Obeys line.now self.old.journal self.new.journal) }
        ensures texts { IfOk result (AreReported self.old.journal self.new.journal) }
        ensures stopped { IfErr result (StopsAt line.now self.old.journal self.new.journal
            self.old.room) }
        ensures room { self.new.room ≡ self.old.room }
        ensures library { self.new.library ≡ self.old.library }
        ensures counted { latest_count (counts_in self.new.journal) ≤ S.faults source.new }
        ensures source { S.library source.new ≡ S.library source.old }
    {
        match line {
            ScriptLine::Look { viewer, view } => self.look(alloc, *viewer, *view),
            ScriptLine::Settle { viewer } => {
                self.load_all(alloc, source)?;
                self.look_again(alloc, *viewer)
            }
            ScriptLine::Return { viewer } => {
                self.give_back(*viewer);
                Ok(TextList::new(alloc))
            }
            ScriptLine::Retry => self.retry(alloc),
            ScriptLine::End => Ok(TextList::new(alloc)),
        }
    }

    /// Ends the session: each frame that is held goes back, and the engine is closed. Gives its
    /// journal, which is legal. It takes no memory.
    pub fn end(self) -> JournalList
        ensures journal { result ≡ self.journal ++ ending (replay self.journal) }
        ensures legal { IsTrue (legal result) }
        ensures agrees { Agrees self.library result }
    {
        let Session { mut desk, frames } = self;
        give_all_back(&mut desk, frames);
        desk.close()
    }

    /// Looks for a viewer.
    fn look(&mut self, alloc: Global, viewer: u8, view: View) -> Result<TextList, SessionError>
        ensures obeyed { OnOk result (HasLooked viewer view false self.old.journal self.new.journal) }
        ensures texts { IfOk result (AreReported self.old.journal self.new.journal) }
        ensures stopped { IfErr result (λ e. IsCauseAt self.new.journal self.old.room e
            × ((self.new.journal ≡ self.old.journal)
            ⊎ HasLooked viewer view false self.old.journal self.new.journal)) }
        ensures rest { IsSameBut self.old self.new }
    {
        self.frames.reserve(1)?;
        match self.desk.look(viewer, view) {
            Ok(frame) => Ok(hold(alloc, &mut self.frames, frame)?),
            Err(LookError::Refused { why }) => Ok(one_text(
                alloc,
                refused_text(alloc, viewer, why)?,
            )?),
            Err(LookError::JournalFull { entries }) => Err(SessionError::JournalFull { entries }),
            Err(LookError::OutOfMemory) => Err(SessionError::OutOfMemory),
            Err(LookError::Closed | LookError::NoView { .. } | LookError::NotSettled { .. }) => {
                unreachable!()
            }
        }
    }

    /// Looks for a viewer's latest view, where it has one, once nothing is left to load.
    fn look_again(&mut self, alloc: Global, viewer: u8) -> Result<TextList, SessionError>
        requires { IsIdle self.old.journal }
        ensures obeyed { OnOk result (LooksAgain (latest_view (replay self.old.journal) viewer) viewer
            self.old.journal self.new.journal) }
        ensures texts { IfOk result (AreReported self.old.journal self.new.journal) }
        ensures stopped { IfErr result (λ e. IsCauseAt self.new.journal self.old.room e
            × ((self.new.journal ≡ self.old.journal)
            ⊎ LooksAgain (latest_view (replay self.old.journal) viewer) viewer
            self.old.journal self.new.journal)) }
        ensures rest { IsSameBut self.old self.new }
    {
        self.frames.reserve(1)?;
        match self.desk.look_settled(viewer) {
            Ok(frame) => Ok(hold(alloc, &mut self.frames, frame)?),
            Err(LookError::Refused { why }) => Ok(one_text(
                alloc,
                refused_text(alloc, viewer, why)?,
            )?),
            Err(LookError::NoView { .. }) => Ok(TextList::new(alloc)),
            Err(LookError::JournalFull { entries }) => Err(SessionError::JournalFull { entries }),
            Err(LookError::OutOfMemory) => Err(SessionError::OutOfMemory),
            Err(LookError::Closed | LookError::NotSettled { .. }) => unreachable!(),
        }
    }

    /// Loads until nothing may be taken any more.
    fn load_all<S: Source>(&mut self, alloc: Global, source: &mut S) -> Result<(), SessionError>
        requires one_library { S.library source.old ≡ self.old.library }
        requires counted { latest_count (counts_in self.old.journal) ≤ S.faults source.old }
        ensures loads { Loads self.old.journal self.new.journal }
        ensures idle { OnOk result (IsIdle self.new.journal) }
        ensures stopped { IfErr result (IsCauseAt self.new.journal self.old.room) }
        ensures rest { IsSameBut self.old self.new }
        ensures counted { latest_count (counts_in self.new.journal) ≤ S.faults source.new }
        ensures source { S.library source.new ≡ S.library source.old }
    {
        self.desk.load_all(alloc, source)
    }

    /// Gives the oldest frame that a viewer holds back, if it holds one. It takes no memory.
    fn give_back(&mut self, viewer: u8)
        ensures journal { GoesBack (oldest (replay self.old.journal) viewer)
            self.old.journal self.new.journal }
        ensures rest { IsSameBut self.old self.new }
    {
        self.desk.frames_are_numbered();
        if let Some(own) = take_oldest(&mut self.frames, viewer) {
            self.desk.give_back(own.into_frame());
        }
    }

    /// Tries anew what failed.
    fn retry(&mut self, alloc: Global) -> Result<TextList, SessionError>
        ensures obeyed { OnOk result (self.new.journal
            ≡ self.old.journal ++ Entry.Retried 0 ∷ []) }
        ensures texts { IfOk result (λ texts. texts ≡ []) }
        ensures stopped { IfErr result (λ e. IsCauseAt self.new.journal self.old.room e
            × (self.new.journal ≡ self.old.journal)) }
        ensures rest { IsSameBut self.old self.new }
    {
        match self.desk.retry() {
            Ok(()) => Ok(TextList::new(alloc)),
            Err(RetryError::JournalFull { entries }) => Err(SessionError::JournalFull { entries }),
            Err(RetryError::OutOfMemory) => Err(SessionError::OutOfMemory),
            Err(RetryError::Closed) => unreachable!(),
        }
    }
}
