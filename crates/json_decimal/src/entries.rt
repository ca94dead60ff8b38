//! Reading a JSON text into entries, in one pass.
ghost use Rattle.std.specs.Prelude.{◌≡◌, ◌≤◌, ◌<◌, ◌-◌, ◌^◌, ◌∷◌, ◌↔◌};
ghost use Rattle.std.specs.Prelude.{Err, OnOk, IfOk, IfErr, length, set};
ghost use Rattle.json_decimal.specs.Ascii.{left_square_bracket, left_curly_bracket};
ghost use Rattle.json_decimal.specs.Entries.{AreTextEntries, value_on};
ghost use Rattle.json_decimal.specs.Grammar.{max_length};
ghost use Rattle.json_decimal.specs.Nested.{opening, item_at, item_values, nested_in, ReadsBefore};
ghost use Rattle.json_decimal.specs.Reading.{name_at, pair_at, nested_at, value_at, value_in};
ghost use Rattle.json_decimal.specs.ReadsInto.{EndsIn, ReadsInto, one, name_alone, member_alone, entry};
ghost use Rattle.json_decimal.specs.Scan.{Gives};

use crate::entry::Entry;
use crate::error::JsonError;
use crate::form::JsonForm;
use crate::limits::{MAX_LENGTH, MAX_NESTING};
use crate::nesting::Nesting;
use crate::primitives::{add, literal, number, quoted};
use crate::scan::{
    Behind, after_one, behind_item, check_end, check_nesting, past_next_byte, skip_whitespace,
    without_mark,
};
use std::alloc::Global;

/// Says how much is inside the list or the object that `spelled` begins with, whose entry is at a
/// place.
fn close(
    entries: &mut Vec<Entry>,
    place: usize,
    bytes: &[u8],
    spelled: &[u8],
) -> Result<(), JsonError>
    requires here { place < length entries.old.items }
    requires within { length spelled.now ≤ length bytes.now }
    requires few { length bytes.now < 2 ^ 32 }
    ensures ok { OnOk result (entries.new.items ≡ set entries.old.items place
        (entry bytes.now spelled.now (length entries.old.items - place - 1))) }
    ensures err { IfErr result (λ e. e ≡ JsonError.OutOfMemory) }
{
    let Ok(inside) = u32::try_from(entries.len() - place - 1) else {
        return Err(JsonError::OutOfMemory);
    };
    entries[place] = Entry::new(bytes, spelled, inside);
    Ok(())
}

/// A value, and the bytes behind it.
#[inline(always)]
#[cycle(reading)]
fn value<'a>(
    entries: &mut Vec<Entry>,
    bytes: &[u8],
    depth: usize,
    spelled: &'a [u8],
) -> Result<&'a [u8], JsonError>
    requires few { length bytes.now < 2 ^ 32 }
    requires ends { EndsIn bytes.now spelled.now }
    ensures { ReadsInto one bytes.now entries.old.items entries.new.items result
        (value_at depth spelled.now) }
{
    match spelled {
        [b'"', ..] => quoted(entries, bytes, spelled),
        [b'{', inside @ ..] => inner(entries, bytes, depth, spelled, inside, Nesting::Object),
        [b'[', inside @ ..] => inner(entries, bytes, depth, spelled, inside, Nesting::List),
        [b'n', ..] => literal(entries, bytes, b"null", spelled),
        [b't', ..] => literal(entries, bytes, b"true", spelled),
        [b'f', ..] => literal(entries, bytes, b"false", spelled),
        _ => number(entries, bytes, spelled),
    }
}

/// A list or an object inside another one.
#[inline(always)]
#[cycle(reading)]
fn inner<'a>(
    entries: &mut Vec<Entry>,
    bytes: &[u8],
    depth: usize,
    spelled: &'a [u8],
    inside: &'a [u8],
    nesting: Nesting,
) -> Result<&'a [u8], JsonError>
    requires few { length bytes.now < 2 ^ 32 }
    requires ends { EndsIn bytes.now spelled.now }
    requires opens { spelled.now ≡ opening nesting ∷ inside.now }
    ensures { ReadsInto one bytes.now entries.old.items entries.new.items result
        (nested_in nesting depth inside.now) }
{
    match nesting {
        Nesting::List => Ok(list(entries, bytes, depth, spelled, inside)?),
        Nesting::Object => Ok(object(entries, bytes, depth, spelled, inside)?),
    }
}

/// A list, and what is behind its opening bracket.
#[inline(never)]
#[cycle(reading)]
fn list<'a>(
    entries: &mut Vec<Entry>,
    bytes: &[u8],
    depth: usize,
    spelled: &'a [u8],
    inside: &'a [u8],
) -> Result<&'a [u8], JsonError>
    requires few { length bytes.now < 2 ^ 32 }
    requires ends { EndsIn bytes.now spelled.now }
    requires opens { spelled.now ≡ left_square_bracket ∷ inside.now }
    ensures { ReadsInto one bytes.now entries.old.items entries.new.items result
        ((nested_at depth).0 inside.now) }
{
    nested(entries, bytes, depth, spelled, inside, Nesting::List)
}

/// An object, and what is behind its opening bracket.
#[inline(never)]
#[cycle(reading)]
fn object<'a>(
    entries: &mut Vec<Entry>,
    bytes: &[u8],
    depth: usize,
    spelled: &'a [u8],
    inside: &'a [u8],
) -> Result<&'a [u8], JsonError>
    requires few { length bytes.now < 2 ^ 32 }
    requires ends { EndsIn bytes.now spelled.now }
    requires opens { spelled.now ≡ left_curly_bracket ∷ inside.now }
    ensures { ReadsInto one bytes.now entries.old.items entries.new.items result
        ((nested_at depth).1 inside.now) }
{
    nested(entries, bytes, depth, spelled, inside, Nesting::Object)
}

/// A list or an object, and what is behind its opening bracket.
#[inline(always)]
#[cycle(reading)]
fn nested<'a>(
    entries: &mut Vec<Entry>,
    bytes: &[u8],
    depth: usize,
    spelled: &'a [u8],
    inside: &'a [u8],
    nesting: Nesting,
) -> Result<&'a [u8], JsonError>
    requires few { length bytes.now < 2 ^ 32 }
    requires ends { EndsIn bytes.now spelled.now }
    requires opens { spelled.now ≡ opening nesting ∷ inside.now }
    ensures { ReadsInto one bytes.now entries.old.items entries.new.items result
        (nested_in nesting depth inside.now) }
{
    check_nesting(depth)?;
    let place = entries.len();
    add(entries, bytes, spelled, 0)?;
    let mut rest = skip_whitespace(inside);
    if let Some(rest) = after_one(nesting.closing(), rest) {
        return Ok(rest);
    }
    loop {
        let after = item(entries, bytes, depth - 1, rest, nesting)?;
        let next = behind_item(nesting.closing(), after)?;
        match next {
            Behind::Separator(more) => rest = more,
            Behind::Closing(more) => {
                close(entries, place, bytes, spelled)?;
                return Ok(more);
            }
        }
    }
}

/// An item: a value of a list, a member of an object.
#[inline(always)]
#[cycle(reading)]
fn item<'a>(
    entries: &mut Vec<Entry>,
    bytes: &[u8],
    depth: usize,
    spelled: &'a [u8],
    nesting: Nesting,
) -> Result<&'a [u8], JsonError>
    requires few { length bytes.now < 2 ^ 32 }
    requires ends { EndsIn bytes.now spelled.now }
    ensures { ReadsInto (item_values nesting) bytes.now entries.old.items entries.new.items result
        (item_at nesting depth spelled.now) }
{
    let at_value = before_value(entries, bytes, spelled, nesting)?;
    value(entries, bytes, depth, at_value)
}

/// What stands before the value of an item: nothing in a list, a name in an object.
#[inline(always)]
fn before_value<'a>(
    entries: &mut Vec<Entry>,
    bytes: &[u8],
    spelled: &'a [u8],
    nesting: Nesting,
) -> Result<&'a [u8], JsonError>
    requires few { length bytes.now < 2 ^ 32 }
    requires ends { EndsIn bytes.now spelled.now }
    ensures { ReadsBefore nesting bytes.now entries.old.items entries.new.items result spelled.now }
{
    match nesting {
        Nesting::List => Ok(spelled),
        Nesting::Object => {
            let behind_name = name(entries, bytes, spelled)?;
            Ok(skip_whitespace(behind_name))
        }
    }
}

/// A member's name, and the bytes behind its colon.
#[inline(always)]
fn name<'a>(
    entries: &mut Vec<Entry>,
    bytes: &[u8],
    spelled: &'a [u8],
) -> Result<&'a [u8], JsonError>
    requires few { length bytes.now < 2 ^ 32 }
    requires ends { EndsIn bytes.now spelled.now }
    ensures { ReadsInto name_alone bytes.now entries.old.items entries.new.items result
        (name_at spelled.now) }
{
    let rest = quoted(entries, bytes, spelled)?;
    past_next_byte(b':', rest)
}

/// The entries of a JSON text.
#[tactic(auto, unfolding(crate::specs::Reading::value_in))]
pub fn entries_of(alloc: Global, bytes: &[u8]) -> Result<Vec<Entry>, JsonError>
    ensures exact { Gives (λ entries. value_on bytes.now entries.items) result
        (value_in bytes.now) }
    ensures told { IfOk result (λ entries. AreTextEntries bytes.now entries.items) }
    ensures too_long { (result ≡ Err JsonError.TooLong) ↔ (max_length < length bytes.now) }
{
    if bytes.len() > MAX_LENGTH {
        return Err(JsonError::TooLong);
    }
    let mut entries = Vec::new(alloc);
    let rest = value(
        &mut entries,
        bytes,
        MAX_NESTING,
        skip_whitespace(without_mark(bytes)),
    )?;
    check_end(rest)?;
    Ok(entries)
}
