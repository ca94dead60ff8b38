//! Building a value of its own out of a value of a JSON text.
ghost use Rattle.std.specs.Prelude.{◌≡◌, IfOk};
ghost use Rattle.json_decimal.specs.Handles.{json_of, items_left, members_left};
ghost use Rattle.json_decimal.specs.JsonValue.{list_of, pairs_of};
ghost use Rattle.json_decimal.specs.View.{value_of};

use crate::form::JsonForm;
use crate::json::{Json, JsonPair};
use crate::json_items::JsonItems;
use crate::json_members::JsonMembers;
use crate::json_ref::JsonRef;
use crate::list::JsonList;
use crate::object::JsonObject;
use std::alloc::{AllocError, Global};
use tile_types::Text;

/// The value, on its own.
#[cycle(building)]
pub fn json(alloc: Global, value: JsonRef<'_>) -> Result<Json, AllocError>
    ensures { IfOk result (λ json. value_of json ≡ json_of value.entry) }
{
    if let Some(items) = value.items() {
        return Ok(Json::List(list(alloc, items)?));
    }
    if let Some(members) = value.members() {
        return Ok(Json::Object(object(alloc, members)?));
    }
    if let Some(text) = value.text() {
        return Ok(Json::Words(text.to_text(alloc)?));
    }
    if let Some(spelling) = value.number() {
        return Ok(Json::Number(Text::new(alloc, spelling)?));
    }
    match value.form() {
        JsonForm::True => Ok(Json::Truth(true)),
        JsonForm::False => Ok(Json::Truth(false)),
        _ => Ok(Json::Null),
    }
}

/// The values that are left, as a list.
#[cycle(building)]
fn list(alloc: Global, items: JsonItems<'_>) -> Result<JsonList, AllocError>
    ensures { IfOk result (λ values. list_of values ≡ items_left items.entry) }
{
    let mut values = JsonList::new(alloc);
    let mut rest = items;
    while let Some(value) = rest.next() {
        values.push(json(alloc, value)?)?;
    }
    Ok(values)
}

/// The members that are left, as an object.
#[cycle(building)]
fn object(alloc: Global, members: JsonMembers<'_>) -> Result<JsonObject, AllocError>
    ensures { IfOk result (λ pairs. pairs_of pairs ≡ members_left members.entry) }
{
    let mut pairs = JsonObject::new(alloc);
    let mut rest = members;
    while let Some((name, value)) = rest.next() {
        pairs.push(JsonPair {
            name: name.to_text(alloc)?,
            value: json(alloc, value)?,
        })?;
    }
    Ok(pairs)
}
