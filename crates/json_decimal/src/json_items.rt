//! Going over the items of a list.
ghost use Rattle.std.specs.Prelude.{◌≡◌};
ghost use Rattle.json_decimal.specs.Entries.{AreEntries};

use crate::entry::Entry;
use crate::form::JsonForm;
use crate::json_ref::JsonRef;
use crate::json_string::JsonString;

/// The values of a list of a JSON text that are left, in order.
#[derive(Clone, Copy, Debug)]
pub struct JsonItems<'a> {
    /// All bytes of the text.
    pub(crate) bytes: &'a [u8],
    /// The entries of the values that are left.
    pub(crate) entries: &'a [Entry],
    ghost told: { AreEntries bytes.now entries.now },
}

impl<'a> JsonItems<'a> {
    ghost use Rattle.std.specs.Prelude.{◌≡◌, [], length, option_map, IfNone};
    ghost use Rattle.json_decimal.specs.Handles.{json_of, text_in, items_left, split_name};
    ghost use Rattle.json_decimal.specs.Named.{plain};
    ghost use Rattle.json_decimal.specs.Parts.{numbers_of, split_first};

    /// The next value, which is then no longer left.
    #[inline(always)]
    pub fn next(&mut self) -> Option<JsonRef<'a>>
        ensures { option_map (λ r. (json_of r, items_left self.new)) result
            ≡ split_first (items_left self.old) }
    {
        self.take_next()
    }

    /// Puts the spellings of the numbers that are left into these places, in order, if each value
    /// is a number and there are as many of them as places. Otherwise it is None, and any may stand
    /// there.
    #[inline]
    pub fn numbers_into(self, numbers: &mut [&'a str]) -> Option<()>
        ensures { option_map (λ _. plain numbers.new) result
            ≡ numbers_of (length numbers.old) (items_left self.entry) }
    {
        // A number has no entry but its own.
        if self.entries.len() != numbers.len() {
            return None;
        }
        for i in 0..numbers.len() {
            let Some(spelling) = self.entries[i].number(self.bytes) else {
                return None;
            };
            numbers[i] = spelling;
        }
        Some(())
    }

    /// The next value, as `next` gives it. At the end nothing is left behind.
    #[inline(always)]
    pub(crate) fn take_next(&mut self) -> Option<JsonRef<'a>>
        ensures first { option_map (λ r. (json_of r, items_left self.new)) result
            ≡ split_first (items_left self.old) }
        ensures end { IfNone result (items_left self.new ≡ []) }
    {
        let Some((first, rest)) = self.entries.split_first() else {
            return None;
        };
        let value = JsonRef {
            bytes: self.bytes,
            entries: self.entries,
        };
        self.entries = first.others(self.bytes, rest);
        Some(value)
    }

    /// The next value as the name of a member, which is empty if it is no string.
    #[inline(always)]
    pub(crate) fn take_name(&mut self) -> Option<JsonString<'a>>
        ensures first { option_map (λ name. (text_in name, items_left self.new)) result
            ≡ split_name (items_left self.old) }
        ensures end { IfNone result (items_left self.new ≡ []) }
    {
        let Some((first, rest)) = self.entries.split_first() else {
            return None;
        };
        match first.form(self.bytes) {
            JsonForm::Words => {
                let name = JsonString::spelled(first.spelled(self.bytes), first.extent as usize);
                self.entries = rest;
                Some(name)
            }
            _ => {
                self.entries = first.others(self.bytes, rest);
                Some(JsonString::Plain(""))
            }
        }
    }
}

impl<'a> Iterator for JsonItems<'a> {
    type Item = JsonRef<'a>;

    ghost use Rattle.std.specs.Iterator.{YieldsFirstBy, item_count};
    ghost use Rattle.json_decimal.specs.Handles.{json_of, items_left};

    ghost next_gives = { YieldsFirstBy json_of items_left };

    ghost remaining = { item_count items_left };

    #[inline(always)]
    fn next(&mut self) -> Option<JsonRef<'a>> {
        self.take_next()
    }
}
