//! The run of a command.

ghost use Rattle.std.specs.Prelude.{◌≡◌, ◌≢◌, ◌⊎◌, None};
ghost use Rattle.stream_cli.specs.Causes.{status_of};
ghost use Rattle.stream_cli.specs.Runs.{Ends, IsUnread, Runs};
ghost use Rattle.stream_cli.specs.Sides.{out_run, source_run};
ghost use Rattle.words_table.specs.Commands.{command_of, form_of, texts};

use crate::cause::Cause;
use crate::commands::root_of;
use crate::ended::Ended;
use crate::loading::open_store;
use crate::rounds::run_rounds;
use source_port::{Sink, Source};
use std::alloc::Global;
use std::thread::Threads;
use words_table::{Command, read_words};

/// Runs the command that the words behind the program's name are, and prints what it asks for.
pub fn run_plain<R: Threads + Sync, S: Source, W: Sink>(
    _rt: &R,
    alloc: Global,
    words: &[&str],
    source: &mut S,
    out: &mut W,
) -> Ended
    ensures status { result.status ≡ status_of result.cause }
    ensures words { result.cause ≡ Cause.Words → command_of (texts words.now) ≡ None }
    ensures runs { result.cause ≢ Cause.Words → Runs (texts words.now)
        (source_run S.library S.faults S.fetches source.old source.new)
        (out_run W.written W.faults W.puts out.old out.new)
        (out.new ≡ out.old) result.cause
        ⊎ IsUnread result.cause (source.new ≡ source.old) (out.new ≡ out.old) }

    // Words that are no command ask for nothing, and those without the form of one are told so
    // whatever memory there is.
    ensures formless { form_of (texts words.now) ≡ None → result.cause ≡ Cause.Words }
    ensures unfetched { result.cause ≡ Cause.Words → source.new ≡ source.old }
    ensures unprinted { result.cause ≡ Cause.Words → out.new ≡ out.old }
    ensures library { S.library source.new ≡ S.library source.old }
{
    let command = match read_words(alloc, words) {
        Ok(command) => command,
        Err(error) => return Ended::by(Cause::of_words(error)),
    };
    Ended::by(run_command(alloc, &command, source, out))
}

/// Runs a command, and answers what the run ends with.
fn run_command<S: Source, W: Sink>(
    alloc: Global,
    command: &Command,
    source: &mut S,
    out: &mut W,
) -> Cause
    ensures ends { Ends command.now
        (source_run S.library S.faults S.fetches source.old source.new)
        (out_run W.written W.faults W.puts out.old out.new)
        (out.new ≡ out.old) result }
    ensures library { S.library source.new ≡ S.library source.old }
{
    match open_store(alloc, root_of(command), source) {
        Ok(store) => run_rounds(alloc, command, source, store, out),
        Err(cause) => cause,
    }
}
