//! The texts that are printed.

ghost use Rattle.std.specs.Prelude.{◌≡◌, IfOk, length, string_bytes};
ghost use Rattle.stream_cli.specs.Kept.{facts_at, kept_line, kept_lines, kept_text, lines_there};
ghost use Rattle.stream_cli.specs.Printing.{PutsLines};
ghost use Rattle.stream_cli.specs.Report.{count_line};
ghost use Rattle.stream_cli.specs.Sides.{out_run};

use crate::contents::ContentMap;
use cut_core::CutLine;
use frame_text::push_show_line;
use itoa::Buffer;
use source_port::{PutError, Sink};
use std::alloc::{AllocError, Global};

/// How many bytes a line has room for before it has to grow.
const COMMON_LINE: usize = 256;

/// Prints a cut: `cut COUNT`, and `show TILE ADDRESS LENGTH DIGEST` for each of its lines whose
/// content is there. Each printed line is one put.
pub fn print_cut<W: Sink>(
    alloc: Global,
    lines: &[CutLine],
    contents: &ContentMap,
    out: &mut W,
) -> Result<(), PutError>
    ensures { PutsLines result (out_run W.written W.faults W.puts out.old out.new)
        (kept_text contents.now lines.now) }
{
    let Ok(mut text) = count_line(alloc, count_there(lines, contents)) else {
        return Err(PutError::OutOfMemory);
    };
    match out.put(alloc, text.as_bytes()) {
        Ok(()) => put_shown(alloc, &mut text, lines, contents, out),
        Err(cause) => Err(cause),
    }
}

/// How many of these lines have a content that is there.
fn count_there(lines: &[CutLine], contents: &ContentMap) -> usize
    ensures { result ≡ length (lines_there contents.now lines.now) }
{
    let mut count = 0;
    let mut guess = 0;
    for line in lines {
        if contents.facts_near(&mut guess, &line.address).is_some() {
            count += 1;
        }
    }
    count
}

/// Puts the line of each content that is there, each written in place of what the text held.
fn put_shown<W: Sink>(
    alloc: Global,
    text: &mut String,
    lines: &[CutLine],
    contents: &ContentMap,
    out: &mut W,
) -> Result<(), PutError>
    ensures { PutsLines result (out_run W.written W.faults W.puts out.old out.new)
        (kept_lines contents.now lines.now) }
{
    let mut guess = 0;
    for line in lines {
        match put_line(alloc, text, line, contents, &mut guess, out) {
            Ok(()) => {}
            Err(cause) => return Err(cause),
        }
    }
    Ok(())
}

/// Puts the line of a content, if it is there, of which the entry is guessed.
fn put_line<W: Sink>(
    alloc: Global,
    text: &mut String,
    line: &CutLine,
    contents: &ContentMap,
    guess: &mut usize,
    out: &mut W,
) -> Result<(), PutError>
    ensures { PutsLines result (out_run W.written W.faults W.puts out.old out.new)
        (kept_line line.now (facts_at contents.now line.now.address)) }
{
    let Some(facts) = contents.facts_near(guess, &line.address) else {
        return Ok(());
    };
    text.clear();
    let tile = line.tile.as_str();
    let address = line.address.as_str();
    if push_show_line(text, tile, address, facts.length, &facts.digest).is_err() {
        return Err(PutError::OutOfMemory);
    }
    match out.put(alloc, text.as_bytes()) {
        Ok(()) => Ok(()),
        Err(cause) => Err(cause),
    }
}

/// The line `cut COUNT`, in a text with room for the common line.
#[tactic(auto, unfolding(crate::specs::Report::count_line))]
fn count_line(alloc: Global, count: usize) -> Result<String, AllocError>
    ensures { IfOk result (λ text. string_bytes text ≡ count_line count) }
{
    let mut digits = Buffer::new();
    let mut text = String::with_capacity(alloc, COMMON_LINE)?;
    text.push_str("cut ")?;
    text.push_str(digits.format(count))?;
    text.push_str("\n")?;
    Ok(text)
}
