//! The program: it runs the command that stands behind its name, over the files below the current
//! folder and standard output.
#![tactic(auto)]

mod cause;
mod commands;
mod contents;
mod ended;
mod everything;
mod fetching;
mod line_end;
mod listing;
mod loading;
mod look;
mod metadata;
mod printing;
mod program;
mod refusal;
mod report;
mod rounds;
mod run;
#[cfg(test)]
mod tests;

use crate::program::{finish, run_given};
use source_port::{DirSource, StdSink};
use std::env;
use std::io::Write;
use std::process::ExitCode;
use std::rt::Runtime;
use std::thread::Threads;

fn main(rt: HostRuntime) -> ExitCode {
    run_program(&rt, &mut rt.stderr())
}

/// Runs the program's arguments over the files below the current folder and standard output. The
/// line of a fault is written to `errors`.
fn run_program<R: Runtime + AllocGlobal + Threads + Sync, E: Write>(
    rt: &R,
    errors: &mut E,
) -> ExitCode {
    let mut source = DirSource::new(rt);
    let mut out = StdSink::new(rt);
    let ended = run_given(rt, rt.alloc(), env::args(rt), &mut source, &mut out);
    finish(rt.alloc(), &ended, errors).code
}
