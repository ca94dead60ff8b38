//! The reading of a script, line by line.

ghost use Rattle.std.specs.Prelude.{◌++◌, ◌∷◌, [], IfOk};
ghost use Rattle.session_script.specs.Reading.{Answers, Steps};
ghost use Rattle.session_script.specs.Scripts.{script_of};

use crate::line::{is_end, is_passed_over, line_of};
use crate::lines_read::LinesRead;
use crate::pieces::first_line;
use crate::script::{Script, ScriptError};
use crate::script_line::ScriptLine;
use crate::step::Step;
use std::alloc::{AllocError, Global};

/// The script that the bytes are.
///
/// Errors: `Line` with the number of the first line that isn't in order, where the bytes are no
/// script, or `OutOfMemory`.
pub fn read_script(alloc: Global, bytes: &[u8]) -> Result<Script, ScriptError>
    ensures { Answers result (script_of bytes.now) }
{
    let mut read = LinesRead::new(alloc);
    let mut rest = bytes;
    let mut number: u64 = 0;
    while !rest.is_empty() {
        number += 1;
        let (text, behind) = first_line(rest);
        rest = behind;
        match take_line(&mut read, text) {
            Ok(Step::More) => {}
            Ok(Step::End) => return end_of(read),
            Ok(Step::Bad) => return Err(ScriptError::Line { number }),
            Err(_) => return Err(ScriptError::OutOfMemory),
        }
    }
    Err(ScriptError::Line { number: number + 1 })
}

/// Reads the text of a line behind those that were read.
fn take_line(read: &mut LinesRead, text: &[u8]) -> Result<Step, AllocError>
    ensures { IfOk result (Steps read.old.lines text.now read.new.lines) }
{
    if is_end(text) {
        return Ok(Step::End);
    }
    if is_passed_over(text) {
        return Ok(Step::More);
    }
    let Some(line) = line_of(text) else {
        return Ok(Step::Bad);
    };
    if !read.may_follow(&line) {
        return Ok(Step::Bad);
    }
    read.push(&line)?;
    Ok(Step::More)
}

/// The script of the lines that were read.
fn end_of(read: LinesRead) -> Result<Script, ScriptError>
    ensures { Answers result (Ok (read.lines ++ ScriptLine.End ∷ [])) }
{
    match read.finish() {
        Ok(script) => Ok(script),
        Err(_) => Err(ScriptError::OutOfMemory),
    }
}
