//! What a run ends with that prints.

ghost use Rattle.std.specs.Prelude.{◌≡◌};
ghost use Rattle.stream_cli.specs.Printing.{IsPrinted};

use crate::cause::Cause;
use source_port::{PutError, Sink};

/// What a run ends with whose printing ended so.
pub fn cause_of<W: Sink>(printed: Result<(), PutError>, out: &W) -> Cause
    ensures { IsPrinted printed (W.faults out.now) result }
{
    match printed {
        Ok(()) => Cause::Done,
        Err(PutError::SinkFailed) => Cause::Out {
            count: out.faults(),
        },
        Err(PutError::OutOfMemory) => Cause::Memory,
    }
}
