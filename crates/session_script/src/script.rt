//! Scripts, and why a text is none.

ghost use Rattle.std.specs.Prelude.{◌≡◌, true};
ghost use Rattle.std.specs.List.{list_all};
ghost use Rattle.session_script.specs.Endings.{ends_once, has_viewer};

use crate::script_line::LineList;
use thiserror::Error;

/// The lines of a script.
#[derive(Debug, Drop)]
pub struct Script {
    /// The last is the end, which stands nowhere else. Each viewer is one of those that there are.
    pub lines: LineList,
    pub ghost ends: { ends_once lines ≡ true },
    pub ghost within: { list_all has_viewer lines ≡ true },
}

/// Why a text is no script.
#[derive(Clone, Copy, Debug, Drop, PartialEq, Eq, Error)]
pub enum ScriptError {
    /// The line of this number, counted from 1, is the first that isn't in order.
    #[error("line {number}")]
    Line { number: u64 },
    /// Memory ran out.
    #[error("out of memory")]
    OutOfMemory,
}
