//! What a line of a script asks for.

use error_test::View;
use lists::List;

/// How many viewers there are. They are numbered from 0.
pub const VIEWERS: usize = 8;

/// A line of a script.
#[derive(Clone, Copy, Debug, PartialEq, Eq)]
pub enum ScriptLine {
    /// `look V VIEW`: the viewer looks.
    Look { viewer: u8, view: View },
    /// `settle V`: what the viewer's latest view wants is loaded, and then it looks.
    Settle { viewer: u8 },
    /// `return V`: the oldest frame that the viewer holds goes back.
    Return { viewer: u8 },
    /// `retry`: attempts and squeezed keys are forgotten.
    Retry,
    /// `end`: the end of the script.
    End,
}

/// Lines of a script, in order.
pub type LineList = List<ScriptLine>;
