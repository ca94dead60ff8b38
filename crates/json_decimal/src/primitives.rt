//! Reading values of the primitive types into entries (RFC 8259, section 1): strings, numbers,
//! booleans and null.
ghost use Rattle.std.specs.Prelude.{◌≡◌, ◌≤◌, ◌<◌, ◌-◌, ◌^◌, ◌++◌, ◌∷◌, [], ℕ, true, false, OnOk, IfErr, length};
ghost use Rattle.json_decimal.specs.Entries.{form_from, value_from};
ghost use Rattle.json_decimal.specs.JsonValue.{number, words};
ghost use Rattle.json_decimal.specs.Numbers.{number_at};
ghost use Rattle.json_decimal.specs.Reading.{leaf, literal, quoted_at};
ghost use Rattle.json_decimal.specs.ReadsInto.{EndsIn, IsLeaf, ReadsInto, one, entry};

use crate::entry::Entry;
use crate::error::JsonError;
use crate::form::JsonForm;
use crate::numbers::past_number;
use crate::scan::{past_byte, past_word};
use crate::short_numbers::short_number_len;
use crate::strings::{past_string, short_string_len};

/// Adds the entry of what `spelled` begins with.
#[inline(always)]
pub fn add(
    entries: &mut Vec<Entry>,
    bytes: &[u8],
    spelled: &[u8],
    extent: usize,
) -> Result<(), JsonError>
    requires within { length spelled.now ≤ length bytes.now }
    requires few { length bytes.now < 2 ^ 32 }
    requires extent { extent < 2 ^ 32 }
    ensures ok { OnOk result
        (entries.new.items ≡ entries.old.items ++ entry bytes.now spelled.now extent ∷ []) }
    ensures err { IfErr result (λ e. e ≡ JsonError.OutOfMemory) }
{
    entries.push(Entry::new(bytes, spelled, extent as u32))?;
    Ok(())
}

/// `null`, `true` or `false`.
#[inline(always)]
pub fn literal<'a>(
    entries: &mut Vec<Entry>,
    bytes: &[u8],
    word: &[u8],
    spelled: &'a [u8],
) -> Result<&'a [u8], JsonError>
    requires few { length bytes.now < 2 ^ 32 }
    requires ends { EndsIn bytes.now spelled.now }
    requires short { length word.now < 2 ^ 32 }
    requires some { 0 < length spelled.now }
    requires leaf { (n : ℕ) → IsLeaf spelled.now n }
    ensures { ReadsInto one bytes.now entries.old.items entries.new.items result
        (literal word.now (value_from spelled.now []) spelled.now) }
{
    let rest = past_word(word, spelled)?;
    add(entries, bytes, spelled, word.len())?;
    Ok(rest)
}

/// A string.
#[inline(always)]
pub fn quoted<'a>(
    entries: &mut Vec<Entry>,
    bytes: &[u8],
    spelled: &'a [u8],
) -> Result<&'a [u8], JsonError>
    requires few { length bytes.now < 2 ^ 32 }
    requires ends { EndsIn bytes.now spelled.now }
    ensures { ReadsInto one bytes.now entries.old.items entries.new.items result
        (leaf words (quoted_at spelled.now)) }
{
    let inside = past_byte(b'"', spelled)?;
    match short_string_len(inside) {
        Some(len) => {
            add(entries, bytes, spelled, len + 2)?;
            Ok(&inside[len + 1..])
        }
        None => long_quoted(entries, bytes, spelled),
    }
}

/// A string that doesn't end within a block.
#[inline(always)]
fn long_quoted<'a>(
    entries: &mut Vec<Entry>,
    bytes: &[u8],
    spelled: &'a [u8],
) -> Result<&'a [u8], JsonError>
    requires few { length bytes.now < 2 ^ 32 }
    requires ends { EndsIn bytes.now spelled.now }
    ensures { ReadsInto one bytes.now entries.old.items entries.new.items result
        (leaf words (quoted_at spelled.now)) }
{
    Ok(any_quoted(entries, bytes, spelled)?)
}

/// Any string.
#[inline(never)]
fn any_quoted<'a>(
    entries: &mut Vec<Entry>,
    bytes: &[u8],
    spelled: &'a [u8],
) -> Result<&'a [u8], JsonError>
    requires few { length bytes.now < 2 ^ 32 }
    requires ends { EndsIn bytes.now spelled.now }
    ensures { ReadsInto one bytes.now entries.old.items entries.new.items result
        (leaf words (quoted_at spelled.now)) }
{
    let inside = past_byte(b'"', spelled)?;
    let (plain, rest) = past_string(inside)?;
    add(entries, bytes, spelled, string_extent(plain, spelled, rest))?;
    Ok(rest)
}

/// The extent of a string with `rest` behind it.
fn string_extent(plain: bool, spelled: &[u8], rest: &[u8]) -> usize
    requires { length rest.now ≤ length spelled.now }
    ensures plain { plain ≡ true → result ≡ length spelled.now - length rest.now }
    ensures escaped { plain ≡ false → result ≡ 0 }
{
    if plain { spelled.len() - rest.len() } else { 0 }
}

/// A number.
#[inline(always)]
pub fn number<'a>(
    entries: &mut Vec<Entry>,
    bytes: &[u8],
    spelled: &'a [u8],
) -> Result<&'a [u8], JsonError>
    requires few { length bytes.now < 2 ^ 32 }
    requires ends { EndsIn bytes.now spelled.now }
    requires form { form_from spelled.now ≡ JsonForm.Number }
    ensures { ReadsInto one bytes.now entries.old.items entries.new.items result
        (leaf number (number_at spelled.now)) }
{
    match short_number_len(spelled) {
        Some(len) => {
            add(entries, bytes, spelled, len)?;
            Ok(&spelled[len..])
        }
        None => long_number(entries, bytes, spelled),
    }
}

/// A number that doesn't end within a block, or has an exponent.
#[inline(always)]
fn long_number<'a>(
    entries: &mut Vec<Entry>,
    bytes: &[u8],
    spelled: &'a [u8],
) -> Result<&'a [u8], JsonError>
    requires few { length bytes.now < 2 ^ 32 }
    requires ends { EndsIn bytes.now spelled.now }
    requires form { form_from spelled.now ≡ JsonForm.Number }
    ensures { ReadsInto one bytes.now entries.old.items entries.new.items result
        (leaf number (number_at spelled.now)) }
{
    Ok(any_number(entries, bytes, spelled)?)
}

/// Any number.
#[inline(never)]
fn any_number<'a>(
    entries: &mut Vec<Entry>,
    bytes: &[u8],
    spelled: &'a [u8],
) -> Result<&'a [u8], JsonError>
    requires few { length bytes.now < 2 ^ 32 }
    requires ends { EndsIn bytes.now spelled.now }
    requires form { form_from spelled.now ≡ JsonForm.Number }
    ensures { ReadsInto one bytes.now entries.old.items entries.new.items result
        (leaf number (number_at spelled.now)) }
{
    let rest = past_number(spelled)?;
    add(entries, bytes, spelled, spelled.len() - rest.len())?;
    Ok(rest)
}
