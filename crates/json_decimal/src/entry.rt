//! Entries: where values and names are spelled.
ghost use Rattle.std.specs.Prelude.{◌≡◌, ◌≤◌, ◌<◌, ◌-◌, ◌^◌, List, length, drop, option_map, IsTrue};
ghost use Rattle.json_decimal.specs.Entries.{form_from, inside, is_entry, value_from};
ghost use Rattle.json_decimal.specs.JsonValue.{JsonValue};
ghost use Rattle.json_decimal.specs.Parts.{number_of};

use crate::form::{JsonForm, form_by, inside_as};

/// Where a value or a name is spelled among the bytes of a JSON text.
#[derive(Clone, Copy, Debug)]
pub struct Entry {
    /// The place of its first byte, which tells its form.
    pub start: u32,
    /// Of a list or an object, the number of entries for what is inside it, which stand right
    /// behind this one. Of a number, `null`, `true`, `false` and a string without escapes, how many
    /// bytes spell it. Of a string with escapes 0.
    pub extent: u32,
}

impl Entry {
    /// The entry of what `spelled` begins with, the last part of all bytes.
    #[inline(always)]
    pub fn new(bytes: &[u8], spelled: &[u8], extent: u32) -> Entry
        requires within { length spelled.now ≤ length bytes.now }
        requires few { length bytes.now < 2 ^ 32 }
        ensures start { result.start ≡ length bytes.now - length spelled.now }
        ensures extent { result.extent ≡ extent }
    {
        Entry {
            start: (bytes.len() - spelled.len()) as u32,
            extent,
        }
    }

    /// The bytes from where it is spelled.
    #[inline(always)]
    pub fn spelled(self, bytes: &[u8]) -> &[u8]
        requires { IsTrue (is_entry bytes.now self) }
        ensures { result.now ≡ drop self.start bytes.now }
    {
        &bytes[self.start as usize..]
    }

    /// The form of what is spelled there.
    #[inline(always)]
    pub fn form(self, bytes: &[u8]) -> JsonForm
        requires { IsTrue (is_entry bytes.now self) }
        ensures { result ≡ form_from (drop self.start bytes.now) }
    {
        form_by(bytes[self.start as usize])
    }

    /// How many entries behind this one stand for what is inside it.
    #[inline(always)]
    pub fn inside(self, bytes: &[u8]) -> usize
        requires { IsTrue (is_entry bytes.now self) }
        ensures { result ≡ inside bytes.now self }
    {
        inside_as(self.form(bytes), self.extent)
    }

    /// The spelling of the number there, if it is one.
    #[inline(always)]
    pub fn number(self, bytes: &[u8]) -> Option<&str>
        requires { IsTrue (is_entry bytes.now self) }
        ensures { (inside : List JsonValue) → option_map (λ spelling. spelling.now) result
            ≡ number_of (value_from (drop self.start bytes.now) inside) }
    {
        match self.form(bytes) {
            JsonForm::Number => {
                let spelling = &self.spelled(bytes)[..self.extent as usize];
                // A number is in ASCII.
                Some(unsafe { str::from_utf8_unchecked(spelling) })
            }
            _ => None,
        }
    }

    /// The entries that stand behind all that is inside it, of those behind this one.
    #[inline(always)]
    pub fn others<'a>(self, bytes: &[u8], behind: &'a [Entry]) -> &'a [Entry]
        requires { IsTrue (is_entry bytes.now self) }
        ensures { result.now ≡ drop (inside bytes.now self) behind.now }
    {
        match self.form(bytes) {
            JsonForm::List | JsonForm::Object => entries_behind(behind, self.extent as usize),
            _ => behind,
        }
    }
}

/// The entries behind the first `count` of them.
#[inline(always)]
fn entries_behind(entries: &[Entry], count: usize) -> &[Entry]
    ensures { result.now ≡ drop count entries.now }
{
    if count <= entries.len() {
        &entries[count..]
    } else {
        &[]
    }
}
