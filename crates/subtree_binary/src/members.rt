//! The value of a member by its name.

ghost use Rattle.std.specs.Prelude.{◌≡◌};
ghost use Rattle.json_decimal.specs.Handles.{json_of, text_in, members_left};
ghost use Rattle.json_decimal.specs.JsonValue.{last_of};
ghost use Rattle.subtree_binary.specs.Seen.{value_seen, with_last};

use json_decimal::{JsonMembers, JsonRef, JsonString};

/// Puts the value of a member at a place, if its name is the one that is wanted there.
#[inline(always)]
fn put_at<'a>(
    place: &mut Option<JsonRef<'a>>,
    wanted: &str,
    name: JsonString<'a>,
    value: JsonRef<'a>,
)
    ensures { value_seen place.new
        ≡ with_last wanted.now (value_seen place.old) (text_in name.entry, json_of value.entry) }
{
    if name.is(wanted) {
        *place = Some(value);
    }
}

/// The value of the last member of this name. It takes no memory.
#[inline(always)]
pub fn last<'a>(members: JsonMembers<'a>, name: &str) -> Option<JsonRef<'a>>
    ensures { value_seen result ≡ last_of name.now (members_left members.entry) }
{
    let mut found = None;
    let mut rest = members;
    while let Some((key, value)) = rest.next() {
        put_at(&mut found, name, key, value);
    }
    found
}
