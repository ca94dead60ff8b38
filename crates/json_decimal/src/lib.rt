//! JSON texts whose numbers keep their spelling.
#![tactic(auto)]

mod blocks;
mod building;
mod entries;
mod entry;
mod error;
mod escapes;
mod form;
mod json;
mod json_items;
mod json_members;
mod json_ref;
mod json_string;
mod json_text;
mod laws;
mod limits;
mod list;
mod nesting;
mod numbers;
mod object;
mod parser;
mod places;
mod primitives;
mod printer;
mod quoting;
mod scan;
mod short_numbers;
mod strings;
mod whole;

pub use error::JsonError;
pub use form::JsonForm;
pub use json::{Json, JsonPair};
pub use json_items::JsonItems;
pub use json_members::JsonMembers;
pub use json_ref::JsonRef;
pub use json_string::{EscapedString, JsonString};
pub use json_text::JsonText;
pub use laws::numbers_are_decimals;
pub use limits::{MAX_LENGTH, MAX_NESTING, WHOLE_LIMIT, WIDE_LIMIT};
pub use list::JsonList;
pub use object::JsonObject;
pub use parser::{one_value, parse, value_is_spelled};
pub use printer::{print, printed_is_read};
pub use quoting::print_text;
pub use whole::{Whole, clamped_whole_of, whole_of};

#[cfg(test)]
mod tests;
