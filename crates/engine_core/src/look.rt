//! A viewer looks.

ghost use Rattle.std.specs.Prelude.{◌≡◌, ◌<◌, ◌≤◌, ◌+◌, ◌++◌, ◌∷◌, [], Bool, false, true, ◌&&◌, ◌||◌, not, IfErr, IfOk, IsErrOf, IsTrue, OnErr, OnOk, filter_map, length, map};
ghost use Rattle.cut_core.specs.Cut.{cut as cut_of};
ghost use Rattle.engine_state.specs.Allowed.{may_ask, may_hold_more, may_refuse};
ghost use Rattle.engine_state.specs.Frames.{addresses_of, frame_lines, holdings, is_too_large, tree};
ghost use Rattle.engine_state.specs.Journal.{fullness};
ghost use Rattle.engine_state.specs.Loading.{is_settled};
ghost use Rattle.engine_state.specs.Report.{line_of_shown};
ghost use Rattle.engine_state.specs.Views.{with_view};
ghost use Rattle.engine_core.specs.Holding.{lines_with};
ghost use Rattle.engine_core.specs.Looking.{IsNextFrame, RefusesShow, looked};
ghost use Rattle.engine_core.specs.Mirrors.{HasRoom, Lives, SameJournal, state_of};

use crate::contents::Contents;
use crate::error::LookError;
use crate::held_pins::FramePins;
use crate::parts::Parts;
use crate::pins::{pin_all, touch_all};
use crate::views::with_latest;
use cut_core::{CutError, CutLine, CutList, cut};
use engine_state::{Entry, EntryView, FRAME_LIMIT, Seen};
use error_test::View;
use frame_pins::{Frame, Shown, ShownList, Why};
use std::alloc::{AllocError, Global};
use tile_cache::Cache;
use tile_types::TextList;

/// Adds the content of a line, where it is resident, and its address.
fn show_line(
    alloc: Global,
    cache: &Cache,
    line: &CutLine,
    shown: &mut ShownList,
    addresses: &mut TextList,
) -> Result<(), AllocError>
    ensures lines { OnOk result (map line_of_shown shown.new
        ≡ map line_of_shown shown.old ++ lines_with cache.now.residents (line.now ∷ [])) }
    ensures addresses { OnOk result (addresses.new
        ≡ addresses.old ++ addresses_of (lines_with cache.now.residents (line.now ∷ []))) }
{
    let Some(content) = cache.share(&line.address)? else {
        return Ok(());
    };
    addresses.push(line.address.copy(alloc)?)?;
    shown.push(Shown {
        tile: line.tile.copy(alloc)?,
        address: line.address.copy(alloc)?,
        content,
    })?;
    Ok(())
}

/// Adds the contents of the lines, those that are resident, and their addresses.
fn show_lines(
    alloc: Global,
    cache: &Cache,
    lines: &[CutLine],
    shown: &mut ShownList,
    addresses: &mut TextList,
) -> Result<(), AllocError>
    ensures lines { OnOk result (map line_of_shown shown.new
        ≡ map line_of_shown shown.old ++ lines_with cache.now.residents lines.now) }
    ensures addresses { OnOk result (addresses.new
        ≡ addresses.old ++ addresses_of (lines_with cache.now.residents lines.now)) }
{
    for line in lines {
        show_line(alloc, cache, line, shown, addresses)?;
    }
    Ok(())
}

impl Parts {
    /// Takes memory for one more frame: for its entry, for what is kept of it, and for its return.
    fn reserve_frame(&mut self) -> Result<(), AllocError>
        requires lives { Lives self.old }
        requires within { fullness self.old.entries.items ≤ self.old.room }
        ensures lives { Lives self.new }
        ensures same { SameJournal self.old self.new }
        ensures room { OnOk result (HasRoom 2 (length self.new.flying.items) self.new) }
        ensures spare { OnOk result (0 < self.new.frames.spare) }
    {
        self.entries
            .reserve(self.flying.len() + self.frames.len() + 3)?;
        self.frames.reserve(1)
    }

    /// The lines of a view's cut.
    fn cut_lines(&mut self, alloc: Global, view: &View) -> Result<CutList, CutError>
        requires lives { Lives self.old }
        requires room { HasRoom 2 (length self.old.flying.items) self.old }
        requires spare { 0 < self.old.frames.spare }
        ensures lives { Lives self.new }
        ensures same { SameJournal self.old self.new }
        ensures room { HasRoom 2 (length self.new.flying.items) self.new }
        ensures spare { 0 < self.new.frames.spare }
        ensures lines { let s = state_of self.old in
            IfOk result (λ lines. lines ≡ cut_of view.now (holdings s) (tree s)) }
        ensures within { OnOk result (is_too_large (state_of self.old) view.now ≡ false) }
        ensures refused { IfErr result (λ e. e ≡ CutError.TooLarge
            → is_too_large (state_of self.old) view.now ≡ true) }
    {
        let contents = Contents {
            cache: &self.cache,
            absent: &self.absent,
        };
        cut(alloc, &mut self.arena, &contents, view)
    }

    /// Notes a look of which the frame shows the contents at these addresses. It takes no memory.
    fn add_looked(
        &mut self,
        pass: u32,
        viewer: u8,
        noted: EntryView,
        settled: bool,
        views: Vec<Seen>,
        addresses: TextList,
    ) -> u64
        requires lives { Lives self.old }
        requires room { HasRoom 2 (length self.old.flying.items) self.old }
        requires spare { 0 < self.old.frames.spare }
        requires within { fullness self.old.entries.items ≤ self.old.room }
        requires open { (state_of self.old).closed ≡ false }
        requires few { may_hold_more (state_of self.old) ≡ true }
        requires fits { is_too_large (state_of self.old) noted ≡ false }
        requires ask { IsTrue (may_ask (state_of self.old) viewer noted settled) }
        requires settled { IsTrue (not settled || is_settled (state_of self.old)) }
        requires views { views.items ≡ with_view viewer noted (state_of self.old).views }
        requires addresses { addresses ≡ addresses_of (frame_lines (state_of self.old) noted) }
        ensures id { result ≡ (state_of self.old).looks + 1 }
        ensures lives { Lives self.new }
        ensures journal { self.new.entries.items ≡ self.old.entries.items
            ++ looked self.old.entries.items pass viewer noted settled ∷ [] }
        ensures room { self.new.room ≡ self.old.room }
    {
        pin_all(&mut self.cache, addresses.as_slice());
        touch_all(&mut self.cache, addresses.as_slice());
        let id = self.looks + 1;
        self.looks = id;
        self.frames.push_reserved(FramePins { id, addresses });
        self.views = views;
        self.squeezed.clear();
        self.noted = false;
        self.filled = false;
        self.entries.push_reserved(Entry::Looked {
            pass,
            id,
            viewer,
            view: noted,
            settled,
        });
        id
    }

    /// Notes a look that has no frame. It takes no memory.
    fn add_refused(
        &mut self,
        pass: u32,
        viewer: u8,
        noted: EntryView,
        settled: bool,
        views: Vec<Seen>,
        why: Why,
    )
        requires lives { Lives self.old }
        requires room { HasRoom 2 (length self.old.flying.items) self.old }
        requires open { (state_of self.old).closed ≡ false }
        requires may { IsTrue (may_refuse (state_of self.old) noted why) }
        requires ask { IsTrue (may_ask (state_of self.old) viewer noted settled) }
        requires views { views.items ≡ with_view viewer noted (state_of self.old).views }
        ensures lives { Lives self.new }
        ensures journal { self.new.entries.items ≡ self.old.entries.items
            ++ Entry.LookRefused pass viewer noted settled why ∷ [] }
        ensures room { self.new.room ≡ self.old.room }
    {
        self.views = views;
        self.squeezed.clear();
        self.noted = false;
        self.filled = false;
        self.entries.push_reserved(Entry::LookRefused {
            pass,
            viewer,
            view: noted,
            settled,
            why,
        });
    }

    /// Shows a viewer the cut of a view, which is its latest one where it asks that nothing is left
    /// to load.
    pub(crate) fn show(
        &mut self,
        alloc: Global,
        pass: u32,
        viewer: u8,
        view: View,
        settled: bool,
    ) -> Result<Frame, LookError>
        requires lives { Lives self.old }
        requires open { (state_of self.old).closed ≡ false }
        requires within { fullness self.old.entries.items ≤ self.old.room }
        requires ask { IsTrue (may_ask (state_of self.old) viewer view settled) }
        requires settled { IsTrue (not settled || is_settled (state_of self.old)) }
        ensures lives { Lives self.new }
        ensures frame { IfOk result (IsNextFrame self.old.entries.items viewer view) }
        ensures journal { OnOk result (self.new.entries.items ≡ self.old.entries.items
            ++ looked self.old.entries.items pass viewer view settled ∷ []) }
        ensures refused { IfErr result (RefusesShow self.old.entries.items self.new.entries.items
            pass viewer view settled) }
        ensures room { self.new.room ≡ self.old.room }
    {
        engine_state::laws::held_frames_are_numbered();
        self.reserve_frame()?;
        let views = with_latest(alloc, &self.views, viewer, &view)?;
        let noted = EntryView::new(alloc, &view)?;
        if self.frames.len() >= FRAME_LIMIT {
            let why = Why::FramesFull;
            self.add_refused(pass, viewer, noted, settled, views, why);
            return Err(LookError::Refused { why });
        }
        let lines = match self.cut_lines(alloc, &view) {
            Ok(lines) => lines,
            Err(CutError::TooLarge) => {
                let why = Why::TooLarge;
                self.add_refused(pass, viewer, noted, settled, views, why);
                return Err(LookError::Refused { why });
            }
            Err(CutError::OutOfMemory) => return Err(LookError::OutOfMemory),
        };
        let mut shown = ShownList::new(alloc);
        let mut addresses = TextList::new(alloc);
        show_lines(
            alloc,
            &self.cache,
            lines.as_slice(),
            &mut shown,
            &mut addresses,
        )?;
        let id = self.add_looked(pass, viewer, noted, settled, views, addresses);
        Ok(Frame::make(id, viewer, view, shown))
    }
}
