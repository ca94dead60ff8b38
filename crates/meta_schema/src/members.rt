//! The members of an object by their names.

ghost use Rattle.std.specs.Prelude.{◌≡◌, [], IfOk, bytes_eq, position};
ghost use Rattle.json_decimal.specs.JsonValue.{pairs_of};
ghost use Rattle.meta_schema.specs.Causes.{Gives};
ghost use Rattle.meta_schema.specs.Members as spec;
ghost use Rattle.meta_schema.specs.Members.{effective_members};
ghost use Rattle.meta_schema.specs.Seen.{members_seen, value_seen};

use crate::error::{Field, SchemaError};
use crate::forms::object_of;
use indexmap::IndexMap;
use indexmap::map::Iter;
use json_decimal::{Json, JsonObject};
use std::alloc::{AllocError, Global};
use std::marker::Model;

/// The members of an object, each name once: at the place of its first member, with the value of
/// its last.
#[derive(Drop)]
pub struct NamedMembers<'a> {
    values: IndexMap<&'a str, &'a Json>,
}

impl<'a> Model for NamedMembers<'a> {
    ghost use Rattle.std.specs.Coded.{codes};
    ghost use Rattle.json_decimal.specs.Code.{coded_value};
    ghost use Rattle.meta_schema.specs.Members.{Members};

    ghost Value = { Members };

    ghost coded = { Prim.hlevel (codes, coded_value) };

    ghost use Rattle.meta_schema.specs.Seen.{members_seen};

    ghost view = { λ m. members_seen m.values.entries };
}

impl<'a> NamedMembers<'a> {
    /// No members, which take no memory.
    pub fn none(alloc: Global) -> NamedMembers<'a>
        ensures { result ≡ [] }
    {
        NamedMembers {
            values: IndexMap::new(alloc),
        }
    }

    /// Those of an object.
    pub fn of(alloc: Global, object: &'a JsonObject) -> Result<NamedMembers<'a>, AllocError>
        ensures { IfOk result (λ members. members ≡ effective_members (pairs_of object.now)) }
    {
        let mut values = IndexMap::with_capacity(alloc, object.len())?;
        for pair in object.as_slice() {
            values.insert(pair.name.as_str(), &pair.value)?;
        }
        Ok(NamedMembers { values })
    }

    /// The members, in order.
    pub fn iter(&self) -> Iter<'_, &'a str, &'a Json>
        ensures { members_seen result ≡ self.now }
    {
        self.values.iter()
    }

    /// The place of the member of this name.
    pub fn place_of(&self, name: &str) -> Option<usize>
        ensures { result ≡ position (bytes_eq name.now) (spec.names self.now) }
    {
        self.values.get_index_of(name)
    }
}

/// The members of an object, of which there are none where it isn't there.
pub fn named_at<'a>(
    alloc: Global,
    value: Option<&'a Json>,
    field: Field,
) -> Result<NamedMembers<'a>, SchemaError>
    ensures { Gives (λ members. members) result (spec.named_at field (value_seen value.entry)) }
{
    match value {
        Some(value) => Ok(NamedMembers::of(alloc, object_of(value, field)?)?),
        None => Ok(NamedMembers::none(alloc)),
    }
}
