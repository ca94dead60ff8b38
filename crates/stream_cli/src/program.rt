//! The program around the run of its words: the arguments that it is given, and how it ends.

ghost use Rattle.std.specs.Prelude.{◌≡◌, ◌≢◌, ◌⊎◌, IfErr, IfOk, IsErr, None};
ghost use Rattle.std.specs.Bool.{OnTrue};
ghost use Rattle.std.specs.Io.KnownBytes.{Appends};
ghost use Rattle.std.specs.IoError.{error_kind};
ghost use Rattle.std.specs.Process.{exit_status};
ghost use Rattle.stream_cli.specs.Causes.{fault_line, status_of};
ghost use Rattle.stream_cli.specs.Arguments.{AreGiven, IsUnreadCause, OfGiven, words_behind};
ghost use Rattle.stream_cli.specs.Runs.{IsUnread, Runs};
ghost use Rattle.stream_cli.specs.Sides.{out_run, source_run};
ghost use Rattle.words_table.specs.Commands.{command_of, texts};

use crate::cause::Cause;
use crate::ended::Ended;
use crate::run::run_plain;
use source_port::{Sink, Source};
use std::alloc::{AllocError, Global};
use std::env::Args;
use std::io;
use std::io::{ErrorKind, Write};
use std::process::ExitCode;
use std::thread::Threads;

/// The arguments of the program, or what it ends with: one that isn't UTF-8 is none of a command.
pub fn read_arguments(alloc: Global, arguments: io::Result<Args>) -> Result<Vec<String>, Cause>
    ensures read { IfOk result (λ all. IfOk arguments (λ given. AreGiven given all.items)) }
    ensures refused { IfErr result (λ cause. IfOk arguments (λ _. cause ≡ Cause.Memory)) }
    ensures unread { IfErr arguments (λ error.
        IfErr result (IsUnreadCause (error_kind error))) }
    ensures never_read { IfErr arguments (λ _. IsErr result) }
{
    match arguments {
        Ok(given) => match collect(alloc, given) {
            Ok(arguments) => Ok(arguments),
            Err(_) => Err(Cause::Memory),
        },
        Err(error) if error.kind() == ErrorKind::OutOfMemory => Err(Cause::Memory),
        Err(_) => Err(Cause::Words),
    }
}

/// All that are given, in order.
fn collect(alloc: Global, given: Args) -> Result<Vec<String>, AllocError>
    ensures { IfOk result (λ all. AreGiven given all.items) }
{
    let collected: Result<Vec<String>, AllocError> = given.collect(alloc);
    match collected {
        Ok(all) => Ok(all),
        Err(e) => Err(e),
    }
}

/// Runs the words behind the program's name, which its arguments begin with.
pub fn run_arguments<R: Threads + Sync, S: Source, W: Sink>(
    rt: &R,
    alloc: Global,
    arguments: &[String],
    source: &mut S,
    out: &mut W,
) -> Ended
    ensures status { result.status ≡ status_of result.cause }
    ensures words { result.cause ≡ Cause.Words → command_of (words_behind arguments.now) ≡ None }
    ensures runs { result.cause ≢ Cause.Words → Runs (words_behind arguments.now)
        (source_run S.library S.faults S.fetches source.old source.new)
        (out_run W.written W.faults W.puts out.old out.new)
        (out.new ≡ out.old) result.cause
        ⊎ IsUnread result.cause (source.new ≡ source.old) (out.new ≡ out.old) }
{
    match words_of(alloc, arguments) {
        Ok(words) => run_plain(rt, alloc, words.as_slice(), source, out),
        Err(_) => Ended::by(Cause::Memory),
    }
}

fn words_of(alloc: Global, arguments: &[String]) -> Result<Vec<&str>, AllocError>
    ensures { IfOk result (λ words. texts words.items ≡ words_behind arguments.now) }
{
    let mut words = Vec::new(alloc);
    let Some((_name, behind)) = arguments.split_first() else {
        return Ok(words);
    };
    for word in behind {
        words.push(word.as_str())?;
    }
    Ok(words)
}

/// Runs the words behind the program's name, which its arguments begin with, where they are told.
pub fn run_given<R: Threads + Sync, S: Source, W: Sink>(
    rt: &R,
    alloc: Global,
    arguments: io::Result<Args>,
    source: &mut S,
    out: &mut W,
) -> Ended
    ensures status { result.status ≡ status_of result.cause }
    ensures words { IfOk arguments (λ given. result.cause ≡ Cause.Words
        → OfGiven given (λ words. command_of words ≡ None)) }
    ensures runs { IfOk arguments (λ given. result.cause ≢ Cause.Words
        → OfGiven given (λ words. Runs words
        (source_run S.library S.faults S.fetches source.old source.new)
        (out_run W.written W.faults W.puts out.old out.new)
        (out.new ≡ out.old) result.cause)
        ⊎ IsUnread result.cause (source.new ≡ source.old) (out.new ≡ out.old)) }
    ensures unread { IfErr arguments (λ error. IsUnreadCause (error_kind error) result.cause
        × (source.new ≡ source.old) × (out.new ≡ out.old)) }
{
    match read_arguments(alloc, arguments) {
        Ok(arguments) => run_arguments(rt, alloc, &arguments, source, out),
        Err(cause) => Ended::by(cause),
    }
}

/// How a program ends: with this exit code, and whether the line of its fault was written whole.
#[derive(Clone, Copy)]
pub struct Exit {
    pub code: ExitCode,
    pub told: bool,
}

/// Writes the line of a run's cause, if there is memory for it; a run that is done has none.
pub fn finish<W: Write>(alloc: Global, ended: &Ended, errors: &mut W) -> Exit
    ensures status { exit_status result.code ≡ ended.now.status }
    ensures told { OnTrue result.told
        (Appends (W.contents errors.old) (W.contents errors.new) (fault_line ended.now.cause)) }
{
    let told = match ended.cause.line(alloc) {
        Ok(line) => errors.write_all(line.as_str().as_bytes()).is_ok(),
        Err(_) => false,
    };
    Exit {
        code: ExitCode::from(ended.status),
        told,
    }
}
