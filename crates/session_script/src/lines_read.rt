//! The lines of a script while it is read.

ghost use Rattle.std.specs.Prelude.{◌≡◌, ℕ, ◌+◌, ◌<◌, [], ◌∷◌, ◌++◌, Some, false, true, count_by};
ghost use Rattle.std.specs.Prelude.{IfOk, OnErr, OnOk, slice_get, slice_index};
ghost use Rattle.std.specs.List.{list_all, list_any};
ghost use Rattle.session_script.specs.Endings.{has_viewer, is_the_end, viewer_in};
ghost use Rattle.session_script.specs.ScriptLines.{viewers};
ghost use Rattle.session_script.specs.Scripts as scripts;
ghost use Rattle.session_script.specs.Scripts.{asks_frame_for, is_look_of, is_return_of};

use crate::script::Script;
use crate::script_line::{LineList, ScriptLine, VIEWERS};
use std::alloc::{AllocError, Global};

/// The lines that were read so far, of which each may follow those before it and none is the end,
/// and what they leave to each viewer: whether it looked, and for how many frames it asked and
/// didn't return them.
#[derive(Drop)]
pub(crate) struct LinesRead {
    pub(crate) lines: LineList,
    looked: [bool; VIEWERS],
    held: [usize; VIEWERS],
    ghost within: { list_all has_viewer lines ≡ true },
    ghost unended: { list_any is_the_end lines ≡ false },
    ghost looked_is: { (viewer : ℕ) → viewer < viewers
        → slice_get looked viewer ≡ Some (list_any (is_look_of viewer) lines) },
    ghost held_is: { (viewer : ℕ) → viewer < viewers
        → slice_index held viewer + count_by (is_return_of viewer) lines
        ≡ count_by (asks_frame_for viewer) lines },
}

impl LinesRead {
    /// No line.
    pub(crate) fn new(alloc: Global) -> LinesRead
        ensures { result.lines ≡ [] }
    {
        LinesRead {
            lines: LineList::new(alloc),
            looked: [false; VIEWERS],
            held: [0; VIEWERS],
        }
    }

    /// Whether the line may follow those that were read.
    pub(crate) fn may_follow(&self, line: &ScriptLine) -> bool
        requires { viewer_in line.now < viewers }
        ensures { result ≡ scripts.may_follow self.now.lines line.now }
    {
        match *line {
            ScriptLine::Settle { viewer } => self.looked[viewer as usize],
            ScriptLine::Return { viewer } => 0 < self.held[viewer as usize],
            _ => true,
        }
    }

    /// Adds a line that may follow those that were read.
    pub(crate) fn push(&mut self, line: &ScriptLine) -> Result<(), AllocError>
        requires within { viewer_in line.now < viewers }
        requires follows { scripts.may_follow self.old.lines line.now ≡ true }
        requires goes_on { is_the_end line.now ≡ false }
        ensures ok { OnOk result (self.new.lines ≡ self.old.lines ++ line.now ∷ []) }
        ensures refused { OnErr result (self.new.lines ≡ self.old.lines) }
    {
        self.lines.push(*line)?;
        let count = self.lines.len();
        match *line {
            ScriptLine::Look { viewer, .. } => {
                self.looked[viewer as usize] = true;
                self.held[viewer as usize] = one_more(self.held[viewer as usize], count);
            }
            ScriptLine::Settle { viewer } => {
                self.held[viewer as usize] = one_more(self.held[viewer as usize], count);
            }
            ScriptLine::Return { viewer } => self.held[viewer as usize] -= 1,
            ScriptLine::Retry | ScriptLine::End => {}
        }
        Ok(())
    }

    /// The lines with the end behind them.
    pub(crate) fn finish(self) -> Result<Script, AllocError>
        ensures { IfOk result (λ script. script.lines ≡ self.lines ++ ScriptLine.End ∷ []) }
    {
        let LinesRead {
            mut lines,
            looked: _,
            held: _,
        } = self;
        lines.push(ScriptLine::End)?;
        Ok(Script { lines })
    }
}

/// One more than a number that is below another.
fn one_more(held: usize, count: usize) -> usize
    requires { held < count }
    ensures { result ≡ held + 1 }
{
    held + 1
}
