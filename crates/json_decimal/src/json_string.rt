//! Strings where they are spelled.
ghost use Rattle.std.specs.Prelude.{◌≡◌, ◌<◌, bytes_eq, drop, length, IfOk, IsTrue};
ghost use Rattle.json_decimal.specs.Handles.{text_in};
ghost use Rattle.json_decimal.specs.Entries.{is_extent, text_from};

use crate::form::JsonForm;
use crate::strings::{has_text, string_end, text_at};
use std::alloc::{AllocError, Global};
use tile_types::Text;

/// A string of a JSON text.
#[derive(Clone, Copy, Debug)]
pub enum JsonString<'a> {
    /// One with no escape is its text.
    Plain(&'a str),
    Escaped(EscapedString<'a>),
}

/// A string in which an escape stands, where it is spelled.
#[derive(Clone, Copy, Debug)]
pub struct EscapedString<'a> {
    /// What stands behind the opening quotation mark.
    bytes: &'a [u8],
}

impl<'a> JsonString<'a> {
    /// The string that is spelled here, of `extent` bytes with its quotation marks, or with escapes
    /// where that is 0.
    #[inline(always)]
    pub(crate) fn spelled(spelled: &'a [u8], extent: usize) -> JsonString<'a>
        requires some { 0 < length spelled.now }
        requires extent { IsTrue (is_extent JsonForm.Words spelled.now extent) }
        ensures { text_in result ≡ text_from (drop 1 spelled.now) }
    {
        if extent == 0 {
            return JsonString::Escaped(EscapedString {
                bytes: &spelled[1..],
            });
        }
        let text = &spelled[1..extent - 1];
        // A string is in UTF-8.
        JsonString::Plain(unsafe { str::from_utf8_unchecked(text) })
    }

    /// Whether the text is this one. It takes no memory.
    #[inline(always)]
    pub fn is(self, text: &str) -> bool
        ensures { result ≡ bytes_eq (text_in self.entry) text.now }
    {
        match self {
            JsonString::Plain(plain) => plain == text,
            JsonString::Escaped(string) => string.is(text),
        }
    }

    /// The text.
    pub fn to_text(self, alloc: Global) -> Result<Text, AllocError>
        ensures { IfOk result (λ text. text ≡ text_in self.entry) }
    {
        match self {
            JsonString::Plain(plain) => Text::new(alloc, plain),
            JsonString::Escaped(string) => string.to_text(alloc),
        }
    }
}

impl EscapedString<'_> {
    fn is(self, text: &str) -> bool
        ensures { result ≡ bytes_eq (text_from self.entry.bytes.now) text.now }
    {
        match string_end(self.bytes) {
            Some(_) => has_text(self.bytes, text.as_bytes()),
            None => text.is_empty(),
        }
    }

    fn to_text(self, alloc: Global) -> Result<Text, AllocError>
        ensures { IfOk result (λ text. text ≡ text_from self.entry.bytes.now) }
    {
        match text_at(alloc, self.bytes)? {
            Some(text) => Ok(text),
            None => Text::new(alloc, ""),
        }
    }
}
