//! The lines of a frame.

ghost use Rattle.std.specs.Prelude.{◌≡◌, IfOk, length};
ghost use Rattle.frame_text.specs.Lines.{frame_line, line_of, lines_of};

use crate::parts::push_parts;
use crate::show_line::shown_text;
use frame_pins::{Frame, Shown};
use itoa::Buffer;
use std::alloc::{AllocError, Global};
use tile_types::{Text, TextList};

/// The lines of a frame, each with its line feed: `frame ID VIEWER COUNT`, and for each content
/// that is shown `show TILE ADDRESS LENGTH DIGEST`.
pub fn frame_text(alloc: Global, frame: &Frame) -> Result<TextList, AllocError>
    ensures { IfOk result (λ lines. lines ≡ lines_of frame.now) }
{
    let shown = frame.shown();
    let mut lines = TextList::new(alloc);
    lines.reserve(shown.len().saturating_add(1))?;
    lines.push(first_line(alloc, frame)?)?;
    for content in shown.as_slice() {
        lines.push(content_line(alloc, content)?)?;
    }
    Ok(lines)
}

/// The line `frame ID VIEWER COUNT`.
#[tactic(auto, unfolding(crate::specs::Lines::frame_line))]
fn first_line(alloc: Global, frame: &Frame) -> Result<Text, AllocError>
    ensures { IfOk result (λ line.
        line ≡ frame_line frame.now.id frame.now.viewer (length frame.now.shown)) }
{
    let (mut id, mut viewer, mut count) = (Buffer::new(), Buffer::new(), Buffer::new());
    let id = id.format(frame.id());
    let viewer = viewer.format(frame.viewer());
    let count = count.format(frame.shown().len());
    let mut line = String::new(alloc);
    push_parts(&mut line, &["frame ", id, " ", viewer, " ", count, "\n"])?;
    Ok(Text::from(line))
}

/// The line of one content that is shown.
fn content_line(alloc: Global, shown: &Shown) -> Result<Text, AllocError>
    ensures { IfOk result (λ line. line ≡ line_of shown.now) }
{
    let Shown {
        tile,
        address,
        content,
    } = shown;
    let len = content.bytes().len() as u64;
    shown_text(alloc, tile, address, len, content.digest())
}
