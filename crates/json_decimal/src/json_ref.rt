//! Values where they are spelled.
ghost use Rattle.std.specs.Prelude.{◌≡◌, ◌<◌, length, take};
ghost use Rattle.json_decimal.specs.Entries.{AreEntries};

use crate::building::json;
use crate::entry::Entry;
use crate::form::JsonForm;
use crate::json::Json;
use crate::json_items::JsonItems;
use crate::json_members::JsonMembers;
use crate::json_string::JsonString;
use std::alloc::{AllocError, Global};

/// A value of a JSON text, where it is spelled.
#[derive(Clone, Copy, Debug)]
pub struct JsonRef<'a> {
    /// All bytes of the text.
    pub(crate) bytes: &'a [u8],
    /// The entry of the value, those of what is inside it, and any others.
    pub(crate) entries: &'a [Entry],
    ghost some: { 0 < length entries.now },
    ghost told: { AreEntries bytes.now entries.now },
}

/// The first `count` entries.
#[inline(always)]
fn entries_front(entries: &[Entry], count: usize) -> &[Entry]
    ensures { result.now ≡ take count entries.now }
{
    if count <= entries.len() {
        &entries[..count]
    } else {
        entries
    }
}

impl<'a> JsonRef<'a> {
    ghost use Rattle.std.specs.Prelude.{◌≡◌, ◌∷◌, drop, option_map, IfOk, IsTrue};
    ghost use Rattle.json_decimal.specs.Handles.{json_of, text_in, items_left, members_left};
    ghost use Rattle.json_decimal.specs.Parts.{form_of, number_of, text_of, items_of, members_of};
    ghost use Rattle.json_decimal.specs.Entries.{is_entry, spelled_at, values_inside};
    ghost use Rattle.json_decimal.specs.View.{value_of};

    /// Its entry.
    #[inline(always)]
    fn entry(self) -> Entry
        ensures told { IsTrue (is_entry self.entry.bytes.now result) }
        ensures first { self.entry.entries.now ≡ result ∷ drop 1 self.entry.entries.now }
        ensures spelled { spelled_at self.entry.bytes.now self.entry.entries.now
            ≡ drop result.start self.entry.bytes.now }
    {
        self.entries[0]
    }

    /// Which form it has.
    #[inline]
    pub fn form(self) -> JsonForm
        ensures { result ≡ form_of (json_of self.entry) }
    {
        self.entry().form(self.bytes)
    }

    /// The spelling, if it is a number.
    #[inline]
    pub fn number(self) -> Option<&'a str>
        ensures { option_map (λ spelling. spelling.now) result ≡ number_of (json_of self.entry) }
    {
        self.entry().number(self.bytes)
    }

    /// The text, if it is a string.
    #[inline]
    pub fn text(self) -> Option<JsonString<'a>>
        ensures { option_map text_in result ≡ text_of (json_of self.entry) }
    {
        let entry = self.entry();
        match entry.form(self.bytes) {
            JsonForm::Words => Some(JsonString::spelled(
                entry.spelled(self.bytes),
                entry.extent as usize,
            )),
            _ => None,
        }
    }

    /// The items, if it is a list.
    #[inline]
    pub fn items(self) -> Option<JsonItems<'a>>
        ensures { option_map items_left result ≡ items_of (json_of self.entry) }
    {
        match self.form() {
            JsonForm::List => Some(self.parts()),
            _ => None,
        }
    }

    /// The members, if it is an object.
    #[inline]
    pub fn members(self) -> Option<JsonMembers<'a>>
        ensures { option_map members_left result ≡ members_of (json_of self.entry) }
    {
        match self.form() {
            JsonForm::Object => Some(JsonMembers {
                parts: self.parts(),
            }),
            _ => None,
        }
    }

    /// The value as one of its own, which stands without the text.
    pub fn to_json(self, alloc: Global) -> Result<Json, AllocError>
        ensures { IfOk result (λ json. value_of json ≡ json_of self.entry) }
    {
        json(alloc, self)
    }

    /// The values and the names right inside it.
    #[inline(always)]
    fn parts(self) -> JsonItems<'a>
        ensures { items_left result ≡ values_inside self.entry.bytes.now self.entry.entries.now }
    {
        let inside = self.entry().inside(self.bytes);
        JsonItems {
            bytes: self.bytes,
            entries: entries_front(&self.entries[1..], inside),
        }
    }
}
