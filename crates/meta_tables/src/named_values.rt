//! What a table says of properties, by their names.

ghost use Rattle.std.specs.Prelude.{◌≡◌, ℕ, List, IfOk, OnOk, bytes_eq};
ghost use Rattle.indexmap.specs.IndexMap.{get};
ghost use Rattle.json_decimal.specs.Handles.{json_of, members_left};
ghost use Rattle.subtree_binary.specs.Seen.{value_seen, with_last};
ghost use Rattle.meta_tables.specs.NamedValues.{HasLasts};
ghost use Rattle.meta_tables.specs.Seen.{members_seen};

use indexmap::IndexMap;
use json_decimal::{JsonMembers, JsonRef};
use std::alloc::{AllocError, Global};
use tile_types::Text;

/// Values by their names.
pub type NamedValues<'a> = IndexMap<Text, JsonRef<'a>>;

/// Puts a value in the place of an earlier one of its name.
fn put<'a>(values: &mut NamedValues<'a>, name: Text, value: JsonRef<'a>) -> Result<(), AllocError>
    ensures { OnOk result ((other : List ℕ) → value_seen (get bytes_eq values.new other)
        ≡ with_last other (value_seen (get bytes_eq values.old other)) (name, json_of value.entry)) }
{
    values.insert(name, value)?;
    Ok(())
}

/// The value of the last member of each name.
fn lasts<'a>(alloc: Global, members: JsonMembers<'a>) -> Result<NamedValues<'a>, AllocError>
    ensures { IfOk result (λ values. HasLasts (get bytes_eq values) (members_left members.entry)) }
{
    let mut values = IndexMap::new(alloc);
    let mut rest = members;
    while let Some((name, value)) = rest.next() {
        put(&mut values, name.to_text(alloc)?, value)?;
    }
    Ok(values)
}

/// The same of an object that need not be there.
pub fn named_values<'a>(
    alloc: Global,
    members: Option<JsonMembers<'a>>,
) -> Result<NamedValues<'a>, AllocError>
    ensures { IfOk result (λ values. HasLasts (get bytes_eq values) (members_seen members.entry)) }
{
    match members {
        Some(members) => lasts(alloc, members),
        None => Ok(IndexMap::new(alloc)),
    }
}

/// The value of a name.
pub fn value_named<'a>(values: &NamedValues<'a>, name: &Text) -> Option<JsonRef<'a>>
    ensures { value_seen result ≡ value_seen (get bytes_eq values.now name.now) }
{
    values.get(name).copied()
}
