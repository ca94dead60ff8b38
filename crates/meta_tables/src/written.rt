//! What the JSON chunk writes of a property table (OGC 22-025r4, "Property tables").

use json_decimal::{JsonMembers, JsonString};

/// The name of a table's class, how many rows it has, and what it says of the properties that it has.
#[derive(Clone, Copy)]
pub struct WrittenTable<'a> {
    pub class: JsonString<'a>,
    pub count: u32,
    pub properties: Option<JsonMembers<'a>>,
}
