//! The reading of one line.

ghost use Rattle.std.specs.Prelude.{◌≡◌, ◌<◌, ◌∷◌, false, IfSome};
ghost use Rattle.session_script.specs.Ascii.{parts_at};
ghost use Rattle.session_script.specs.Endings.{is_the_end, viewer_in};
ghost use Rattle.session_script.specs.ScriptLines as lines;
ghost use Rattle.session_script.specs.ScriptLines.{space, viewers};
ghost use Rattle.session_script.specs.Scripts as scripts;
ghost use Rattle.session_script.specs.Views.{view_of};

use crate::pieces::first_piece;
use crate::script_line::{ScriptLine, VIEWERS};
use crate::view::read_view;
use error_test::View;
use std::str;

/// Whether the line is `end`.
pub(crate) fn is_end(text: &[u8]) -> bool
    ensures { result ≡ scripts.is_end text.now }
{
    text == b"end".as_slice()
}

/// Whether the line asks for nothing: it is empty, or begins with `#`.
pub(crate) fn is_passed_over(text: &[u8]) -> bool
    ensures { result ≡ lines.is_passed_over text.now }
{
    match text.first() {
        None => true,
        Some(byte) => *byte == b'#',
    }
}

/// The line before the end that the text is. Takes no memory.
pub(crate) fn line_of(text: &[u8]) -> Option<ScriptLine>
    ensures value { result ≡ lines.line_of text.now }
    ensures within { IfSome result (λ line. viewer_in line < viewers) }
    ensures goes_on { IfSome result (λ line. is_the_end line ≡ false) }
{
    let (name, behind) = first_piece(text, b' ');
    match behind {
        None => plain_line(name),
        Some(behind) => line_of_viewer(name, behind),
    }
}

/// `retry`.
fn plain_line(name: &[u8]) -> Option<ScriptLine>
    ensures value { result ≡ lines.plain_line name.now }
    ensures within { IfSome result (λ line. viewer_in line < viewers) }
    ensures goes_on { IfSome result (λ line. is_the_end line ≡ false) }
{
    if name == b"retry".as_slice() {
        Some(ScriptLine::Retry)
    } else {
        None
    }
}

/// A line whose second word is a viewer.
fn line_of_viewer(name: &[u8], behind: &[u8]) -> Option<ScriptLine>
    ensures value { result ≡ lines.line_of_words (name.now ∷ parts_at space behind.now) }
    ensures within { IfSome result (λ line. viewer_in line < viewers) }
    ensures goes_on { IfSome result (λ line. is_the_end line ≡ false) }
{
    let (word, more) = first_piece(behind, b' ');
    let viewer = viewer_of(word)?;
    match more {
        None => viewer_line(name, viewer),
        Some(more) => look_line(name, viewer, more),
    }
}

/// The viewer whose number the word is.
fn viewer_of(word: &[u8]) -> Option<u8>
    ensures value { result ≡ lines.viewer_of word.now }
    ensures within { IfSome result (λ viewer. viewer < viewers) }
{
    let [digit] = word else {
        return None;
    };
    let viewer = digit.checked_sub(b'0')?;
    if (viewer as usize) < VIEWERS {
        Some(viewer)
    } else {
        None
    }
}

/// `settle V` or `return V`.
fn viewer_line(name: &[u8], viewer: u8) -> Option<ScriptLine>
    requires { viewer < viewers }
    ensures value { result ≡ lines.viewer_line name.now viewer }
    ensures within { IfSome result (λ line. viewer_in line < viewers) }
    ensures goes_on { IfSome result (λ line. is_the_end line ≡ false) }
{
    if name == b"settle".as_slice() {
        Some(ScriptLine::Settle { viewer })
    } else if name == b"return".as_slice() {
        Some(ScriptLine::Return { viewer })
    } else {
        None
    }
}

/// `look V VIEW`, of what stands behind the viewer.
fn look_line(name: &[u8], viewer: u8, more: &[u8]) -> Option<ScriptLine>
    requires { viewer < viewers }
    ensures value { result ≡ lines.line_of_viewer name.now viewer (parts_at space more.now) }
    ensures within { IfSome result (λ line. viewer_in line < viewers) }
    ensures goes_on { IfSome result (λ line. is_the_end line ≡ false) }
{
    let (word, further) = first_piece(more, b' ');
    if let Some(_) = further {
        return None;
    }
    let view = view_in(word)?;
    if name == b"look".as_slice() {
        Some(ScriptLine::Look { viewer, view })
    } else {
        None
    }
}

/// The view that the bytes spell.
fn view_in(bytes: &[u8]) -> Option<View>
    ensures { result ≡ view_of bytes.now }
{
    match str::from_utf8(bytes) {
        Ok(text) => read_view(text),
        Err(_) => None,
    }
}
