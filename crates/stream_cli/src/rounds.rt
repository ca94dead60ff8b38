//! The rounds of a command: a look, and the documents that it waits for.

ghost use Rattle.std.specs.Prelude.{◌≡◌};
ghost use Rattle.stream_cli.specs.Sides.{out_run, source_run};
ghost use Rattle.stream_cli.specs.Steps.{EndsRounds};

use crate::cause::Cause;
use crate::commands::look;
use crate::loading::load_all;
use crate::look::Look;
use doc_store::DocStore;
use source_port::{Sink, Source};
use std::alloc::Global;
use words_table::Command;

/// Looks at what is loaded and loads what that waits for, round by round, until a look prints what
/// the command asks for, and answers what the run ends with.
pub fn run_rounds<S: Source, W: Sink>(
    alloc: Global,
    command: &Command,
    source: &mut S,
    mut store: DocStore,
    out: &mut W,
) -> Cause
    ensures ends { EndsRounds command.now
        (source_run S.library S.faults S.fetches source.old source.new) store
        (out_run W.written W.faults W.puts out.old out.new) (out.new ≡ out.old) result }
    ensures library { S.library source.new ≡ S.library source.old }
{
    // Each round asks for a document of which nothing was known, and no store holds 2^64 of them.
    for _ in 0..u64::MAX {
        let keys = match look(alloc, command, store, source, out) {
            Look::Awaits {
                keys,
                store: given_back,
            } => {
                store = given_back;
                keys
            }
            Look::Ended(cause) => return cause,
        };
        match load_all(alloc, keys.as_slice(), source, &mut store) {
            Ok(()) => {}
            Err(cause) => return cause,
        }
    }
    Cause::Memory
}
