//! Values as the texts that are printed of them.
ghost use Rattle.std.specs.Prelude.{◌≡◌, ◌≤◌, ◌++◌, OnOk, IfOk, IsUtf8, Some, codes, map};
ghost use Rattle.std.specs.List.{flat_map};
ghost use Rattle.json_decimal.specs.Grammar.{IsText, max_nesting};
ghost use Rattle.json_decimal.specs.JsonValue.{JsonValue, depth, values, pairs};
ghost use Rattle.json_decimal.specs.Printed as texts;
ghost use Rattle.json_decimal.specs.Reading.{value_in};
ghost use Rattle.json_decimal.specs.View.{value_of, pair_of};
ghost use Rattle.json_decimal.specs.WellFormed.{IsWellFormed, AreWellFormed, ArePairsWellFormed};

use crate::json::{Json, JsonPair};
use crate::quoting::push_quoted;
use std::alloc::{AllocError, Global};

/// The text of a value (RFC 8259), in UTF-8 and without white space. Numbers keep their spelling, and in
/// strings `"`, `\` and what is below U+0020 alone are escaped, the last as `\u00` and two digits.
pub fn print(alloc: Global, value: &Json) -> Result<Vec<u8>, AllocError>
    requires nesting { depth (value_of value.now) ≤ max_nesting }
    requires numbers { texts.SpellsNumbers (value_of value.now) }
    // It is the one text that is printed of the value.
    ensures printed { IfOk result (λ text. text.items ≡ texts.printed (value_of value.now)) }
    // It spells the value.
    ensures spelled { IfOk result (λ text. IsText (value_of value.now) text.items) }
    // Which is what is read of it.
    ensures read { IfOk result (λ text. value_in text.items ≡ Some (value_of value.now)) }
{
    let mut text = Vec::new(alloc);
    push_value(value, &mut text)?;
    Ok(text)
}

/// What is printed of a value spells it, and is read as it. A well-formed value, as `parse` answers,
/// meets what `print` asks of numbers.
pub fn printed_is_read()
    ensures spelled { (v : JsonValue) → IsWellFormed v → depth v ≤ max_nesting
        → IsText v (texts.printed v) }
    ensures read { (v : JsonValue) → IsWellFormed v → depth v ≤ max_nesting
        → value_in (texts.printed v) ≡ Some v }
    ensures numbers { (v : JsonValue) → IsWellFormed v → texts.SpellsNumbers v }
{}

/// Adds a value. Its texts are UTF-8, since each is a `Text`.
#[cycle(printing)]
fn push_value(value: &Json, into: &mut Vec<u8>) -> Result<(), AllocError>
    requires { texts.SpellsNumbers (value_of value.now) }
    ensures added { OnOk result (into.new.items
        ≡ into.old.items ++ texts.printed (value_of value.now)) }
    ensures well_formed { OnOk result (IsWellFormed (value_of value.now)) }
{
    match value {
        Json::Null => push("null", into),
        Json::Truth(true) => push("true", into),
        Json::Truth(false) => push("false", into),
        Json::Number(spelling) => push(spelling.as_str(), into),
        Json::Words(text) => push_quoted(text.as_str(), into),
        Json::List(items) => push_values(items.as_slice(), into),
        Json::Object(members) => push_members(members.as_slice(), into),
    }
}

/// Adds values as a list.
#[cycle(printing)]
fn push_values(items: &[Json], into: &mut Vec<u8>) -> Result<(), AllocError>
    requires { texts.SpellAllNumbers (values (map value_of items.now)) }
    ensures added { OnOk result (into.new.items ≡ into.old.items
        ++ (codes "[" ++ texts.with_commas (texts.printed_values (values (map value_of items.now)))
        ++ codes "]")) }
    ensures well_formed { OnOk result (AreWellFormed (values (map value_of items.now))) }
{
    let Some((first, others)) = items.split_first() else {
        return push("[]", into);
    };
    push("[", into)?;
    push_value(first, into)?;
    push_more_values(others, into)?;
    push("]", into)
}

/// Adds values, each behind a comma.
#[cycle(printing)]
fn push_more_values(items: &[Json], into: &mut Vec<u8>) -> Result<(), AllocError>
    requires { texts.SpellAllNumbers (values (map value_of items.now)) }
    ensures added { OnOk result (into.new.items ≡ into.old.items
        ++ flat_map (λ t. codes "," ++ t) (texts.printed_values (values (map value_of items.now)))) }
    ensures well_formed { OnOk result (AreWellFormed (values (map value_of items.now))) }
{
    let mut rest = items;
    while let Some((item, more)) = rest.split_first() {
        push(",", into)?;
        push_value(item, into)?;
        rest = more;
    }
    Ok(())
}

/// Adds members as an object.
#[cycle(printing)]
fn push_members(members: &[JsonPair], into: &mut Vec<u8>) -> Result<(), AllocError>
    requires { texts.SpellMemberNumbers (pairs (map pair_of members.now)) }
    ensures added { OnOk result (into.new.items ≡ into.old.items
        ++ (codes "{" ++ texts.with_commas (texts.printed_members (pairs (map pair_of members.now)))
        ++ codes "}")) }
    ensures well_formed { OnOk result (ArePairsWellFormed (pairs (map pair_of members.now))) }
{
    let Some((first, others)) = members.split_first() else {
        return push("{}", into);
    };
    push("{", into)?;
    push_member(first, into)?;
    push_more_members(others, into)?;
    push("}", into)
}

/// Adds members, each behind a comma.
#[cycle(printing)]
fn push_more_members(members: &[JsonPair], into: &mut Vec<u8>) -> Result<(), AllocError>
    requires { texts.SpellMemberNumbers (pairs (map pair_of members.now)) }
    ensures added { OnOk result (into.new.items ≡ into.old.items
        ++ flat_map (λ t. codes "," ++ t) (texts.printed_members (pairs (map pair_of members.now)))) }
    ensures well_formed { OnOk result (ArePairsWellFormed (pairs (map pair_of members.now))) }
{
    let mut rest = members;
    while let Some((member, more)) = rest.split_first() {
        push(",", into)?;
        push_member(member, into)?;
        rest = more;
    }
    Ok(())
}

/// Adds a name and its value.
#[cycle(printing)]
fn push_member(member: &JsonPair, into: &mut Vec<u8>) -> Result<(), AllocError>
    requires { texts.SpellsNumbers (value_of member.now.value) }
    ensures added { OnOk result (into.new.items ≡ into.old.items
        ++ (texts.quoted member.now.name ++ codes ":" ++ texts.printed (value_of member.now.value))) }
    ensures well_formed { OnOk result (IsUtf8 member.now.name × IsWellFormed (value_of member.now.value)) }
{
    push_quoted(member.name.as_str(), into)?;
    push(":", into)?;
    push_value(&member.value, into)
}

/// Adds bytes as they are.
fn push(text: &str, into: &mut Vec<u8>) -> Result<(), AllocError>
    ensures { OnOk result (into.new.items ≡ into.old.items ++ text.now) }
{
    into.extend_from_slice(text.as_bytes())
}
