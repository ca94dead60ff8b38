//! Steps over the parts of a string.
ghost use Rattle.std.specs.Prelude.{◌≡◌, ◌<◌, ◌≤◌, true, option_map, IfOk, IfSome, length, encode_utf8, []};
ghost use Rattle.std.specs.Char.{IsScalar};
ghost use Rattle.json_decimal.specs.Scan.{Tells, after};
ghost use Rattle.json_decimal.specs.Strings.{plain_len, run_end, string_at, behind_string, IsPlainAscii, IsPlain};
ghost use Rattle.json_decimal.specs.Strings.{TellsText};
ghost use Rattle.json_decimal.specs.Seen.{run_end_view};

use crate::blocks::{BLOCK, plain_ascii_len};
use crate::error::JsonError;
use crate::escapes::escape;
use crate::scan::after_word;
use std::alloc::{AllocError, Global};
use tile_types::Text;

/// How many bytes stand for themselves, up to the first that does not.
pub fn plain_len(bytes: &[u8]) -> usize
    ensures value { result ≡ plain_len bytes.now }
    ensures within { result ≤ length bytes.now }
{
    let mut rest = bytes;
    let mut count = 0;
    while let [byte, more @ ..] = rest {
        if *byte < b' ' || *byte == b'"' || *byte == b'\\' {
            return count;
        }
        count += 1;
        rest = more;
    }
    count
}

/// What ends a run of bytes that stand for themselves, and the bytes behind it.
enum RunEnd<'a> {
    Quote(&'a [u8]),
    Escape(&'a [u8]),
    Neither,
}

fn end_of_run(bytes: &[u8]) -> RunEnd<'_>
    ensures { run_end_view result ≡ run_end bytes.now }
{
    match bytes {
        [b'"', rest @ ..] => RunEnd::Quote(rest),
        [b'\\', rest @ ..] => RunEnd::Escape(rest),
        _ => RunEnd::Neither,
    }
}

/// The length of a string in ASCII with no escape that ends within a block, from behind its opening
/// quotation mark.
#[inline(always)]
pub fn short_string_len(bytes: &[u8]) -> Option<usize>
    ensures { IfSome result (IsPlainAscii bytes.now) }
{
    let block = bytes.first_chunk::<BLOCK>()?;
    let len = plain_ascii_len(block);
    if len < BLOCK && block[len] == b'"' {
        Some(len)
    } else {
        None
    }
}

/// The same of one of any length.
fn plain_ascii_string_len(bytes: &[u8]) -> Option<usize>
    ensures { IfSome result (IsPlainAscii bytes.now) }
{
    let mut rest = bytes;
    let mut count = 0;
    while let Some((block, more)) = rest.split_first_chunk::<BLOCK>() {
        let len = plain_ascii_len(block);
        if len < BLOCK {
            return if block[len] == b'"' {
                Some(count + len)
            } else {
                None
            };
        }
        count += BLOCK;
        rest = more;
    }
    None
}

/// The text of a string, from behind its opening quotation mark (RFC 8259, section 7), or None
/// where none stands here.
pub fn text_at(alloc: Global, bytes: &[u8]) -> Result<Option<Text>, AllocError>
    ensures { IfOk result (λ text. text ≡ option_map (λ x. x.0) (string_at bytes.now)) }
{
    let mut text = String::new(alloc);
    let mut rest = bytes;
    loop {
        let (run, more) = rest.split_at(plain_len(rest));
        let Ok(run) = str::from_utf8(run) else {
            return Ok(None);
        };
        text.push_str(run)?;
        match end_of_run(more) {
            RunEnd::Quote(_) => return Ok(Some(Text::new(alloc, text.as_str())?)),
            RunEnd::Escape(after) => {
                let Some((code, after)) = escape(after) else {
                    return Ok(None);
                };
                let Some(character) = char::from_u32(code) else {
                    return Ok(None);
                };
                text.push(character)?;
                rest = after;
            }
            RunEnd::Neither => return Ok(None),
        }
    }
}

/// Whether a string stands for itself, with no escape, and the bytes behind it, from behind its
/// opening quotation mark.
#[inline(never)]
pub fn string_end(bytes: &[u8]) -> Option<(bool, &[u8])>
    ensures behind { option_map (λ x. x.1.now) result ≡ behind_string bytes.now }
    ensures plain { IfSome result (λ x. x.0 ≡ true → IsPlain bytes.now x.1.now) }
{
    match plain_ascii_string_len(bytes) {
        Some(len) => Some((true, &bytes[len + 1..])),
        None => any_string_end(bytes),
    }
}

/// The same of any string.
fn any_string_end(bytes: &[u8]) -> Option<(bool, &[u8])>
    ensures behind { option_map (λ x. x.1.now) result ≡ behind_string bytes.now }
    ensures plain { IfSome result (λ x. x.0 ≡ true → IsPlain bytes.now x.1.now) }
{
    let mut plain = true;
    let mut rest = bytes;
    loop {
        let (run, more) = rest.split_at(plain_len(rest));
        let Ok(_run) = str::from_utf8(run) else {
            return None;
        };
        match end_of_run(more) {
            RunEnd::Quote(after) => return Some((plain, after)),
            RunEnd::Escape(after) => {
                let Some((_code, after)) = escape(after) else {
                    return None;
                };
                plain = false;
                rest = after;
            }
            RunEnd::Neither => return None,
        }
    }
}

/// The same of a string that has to stand here.
pub fn past_string(bytes: &[u8]) -> Result<(bool, &[u8]), JsonError>
    ensures behind { Tells (λ x. x.1.now) result (behind_string bytes.now) }
    ensures plain { IfOk result (λ x. x.0 ≡ true → IsPlain bytes.now x.1.now) }
{
    match string_end(bytes) {
        Some(end) => Ok(end),
        None => Err(JsonError::NotJson),
    }
}

/// What is left of the bytes behind a character in UTF-8, where they begin with it.
fn after_character(code: u32, bytes: &[u8]) -> Option<&[u8]>
    requires { IsScalar code }
    ensures { option_map (λ r. r.now) result ≡ after (encode_utf8 code) bytes.now }
{
    let character = char::from_u32(code)?;
    let mut buffer = [0; 4];
    after_word(character.encode_utf8(&mut buffer).as_bytes(), bytes)
}

/// Whether there are no bytes.
fn has_none(bytes: &[u8]) -> bool
    ensures none { result ≡ true → bytes.now ≡ [] }
    ensures some { bytes.now ≡ [] → result ≡ true }
{
    matches!(bytes, [])
}

/// Whether a string has these bytes as its text, from behind its opening quotation mark. It takes
/// no memory.
pub fn has_text(bytes: &[u8], text: &[u8]) -> bool
    ensures { TellsText bytes.now text.now result }
{
    let mut rest = bytes;
    let mut left = text;
    loop {
        let (run, more) = rest.split_at(plain_len(rest));
        let Some(behind) = after_word(run, left) else {
            return false;
        };
        match end_of_run(more) {
            RunEnd::Quote(_) => return has_none(behind),
            RunEnd::Escape(after) => {
                let Some((code, after)) = escape(after) else {
                    return false;
                };
                let Some(behind) = after_character(code, behind) else {
                    return false;
                };
                rest = after;
                left = behind;
            }
            RunEnd::Neither => return false,
        }
    }
}
