//! Going over the members of an object.
ghost use Rattle.std.specs.Prelude.{◌≡◌, [], None, length, map, option_map, IfNone};
ghost use Rattle.json_decimal.specs.JsonValue.{last_of};
ghost use Rattle.json_decimal.specs.Named.{lasts, plain, seen, with_member};
ghost use Rattle.json_decimal.specs.Handles.{json_of, text_in, member_of, members_left};
ghost use Rattle.json_decimal.specs.Parts.{split_first};

use crate::json_items::JsonItems;
use crate::json_ref::JsonRef;
use crate::json_string::JsonString;

/// The members of an object of a JSON text that are left, in order. A name may come more than once.
#[derive(Clone, Copy, Debug)]
pub struct JsonMembers<'a> {
    /// Each name, and its value behind it.
    pub(crate) parts: JsonItems<'a>,
}

impl<'a> JsonMembers<'a> {
    /// The next member's name and value, which is then no longer left.
    #[inline(always)]
    pub fn next(&mut self) -> Option<(JsonString<'a>, JsonRef<'a>)>
        ensures { option_map (λ m. ((text_in m.0, json_of m.1), members_left self.new)) result
            ≡ split_first (members_left self.old) }
    {
        self.take_next()
    }

    /// Puts values at the places of their names: at each the value of the last member of that name
    /// that is left. Where no member has the name, what stood there stays. It takes no memory.
    pub fn last_named(self, names: &[&str], values: &mut [Option<JsonRef<'a>>])
        requires places { length values.old ≡ length names.now }
        ensures values { seen values.new
            ≡ lasts (plain names.now) (seen values.old) (members_left self.entry) }
        // What that is where nothing stood there.
        ensures fresh { seen values.old ≡ map (λ _. None) (plain names.now)
            → seen values.new
            ≡ map (λ name. last_of name (members_left self.entry)) (plain names.now) }
    {
        let mut rest = self;
        while let Some((name, value)) = rest.next() {
            put(names, values, name, value);
        }
    }

    /// The next member, as `next` gives it. At the end nothing is left behind.
    #[inline(always)]
    fn take_next(&mut self) -> Option<(JsonString<'a>, JsonRef<'a>)>
        ensures first { option_map (λ m. (member_of m, members_left self.new)) result
            ≡ split_first (members_left self.old) }
        ensures end { IfNone result (members_left self.new ≡ []) }
    {
        let name = self.parts.take_name()?;
        let value = self.parts.take_next()?;
        Some((name, value))
    }
}

impl<'a> Iterator for JsonMembers<'a> {
    type Item = (JsonString<'a>, JsonRef<'a>);

    ghost use Rattle.std.specs.Iterator.{YieldsFirstBy, item_count};
    ghost use Rattle.json_decimal.specs.Handles.{member_of, members_left};

    ghost next_gives = { YieldsFirstBy member_of members_left };

    ghost remaining = { item_count members_left };

    #[inline(always)]
    fn next(&mut self) -> Option<(JsonString<'a>, JsonRef<'a>)> {
        self.take_next()
    }
}

/// Puts the value of a member at each place whose name is its own.
#[inline(always)]
fn put<'a>(
    names: &[&str],
    values: &mut [Option<JsonRef<'a>>],
    name: JsonString<'a>,
    value: JsonRef<'a>,
)
    requires places { length values.old ≡ length names.now }
    ensures { seen values.new ≡ with_member (plain names.now) (seen values.old)
        (text_in name.entry, json_of value.entry) }
{
    for i in 0..names.len() {
        if name.is(names[i]) {
            values[i] = Some(value);
        }
    }
}
