//! Escapes of characters in strings (RFC 8259, section 7).
ghost use Rattle.std.specs.Prelude.{◌≡◌, ◌<◌, ◌≤◌, option_map, IfSome};
ghost use Rattle.std.specs.Char.{IsScalar};
ghost use Rattle.json_decimal.specs.Characters.{hex_digit, short_escape};
ghost use Rattle.json_decimal.specs.Strings.{unit_at, low_at, units_at, escape_at};

use crate::scan::after_word;

fn hex_value(byte: u8) -> Option<u32>
    ensures value { result ≡ hex_digit byte }
    ensures small { IfSome result (λ d. d < 16) }
{
    match byte {
        b'0'..=b'9' => Some(u32::from(byte - b'0')),
        b'A'..=b'F' => Some(10 + u32::from(byte - b'A')),
        b'a'..=b'f' => Some(10 + u32::from(byte - b'a')),
        _ => None,
    }
}

/// The number that four hexadecimal digits stand for.
fn unit(bytes: &[u8]) -> Option<(u32, &[u8])>
    ensures value { option_map (λ x. (x.0, x.1.now)) result ≡ unit_at bytes.now }
    ensures small { IfSome result (λ x. x.0 < 0x10000) }
{
    match bytes {
        [i, j, k, l, rest @ ..] => {
            let a = hex_value(*i)?;
            let b = hex_value(*j)?;
            let c = hex_value(*k)?;
            let d = hex_value(*l)?;
            Some((16 * (16 * (16 * a + b) + c) + d, rest))
        }
        _ => None,
    }
}

/// The character of a pair of units, from behind the first.
#[tactic(auto, unfolding(crate::specs::Strings::low_at))]
fn low(high: u32, bytes: &[u8]) -> Option<(u32, &[u8])>
    requires above { 0xD800 ≤ high }
    requires below { high < 0xDC00 }
    ensures value { option_map (λ x. (x.0, x.1.now)) result ≡ low_at high bytes.now }
    ensures scalar { IfSome result (λ x. IsScalar x.0) }
{
    let rest = after_word(b"\\u", bytes)?;
    let (low, rest) = unit(rest)?;
    if low < 0xDC00 || 0xE000 <= low {
        return None;
    }
    Some((0x10000 + (high - 0xD800) * 0x400 + (low - 0xDC00), rest))
}

/// The character that one unit is, or that two units make.
#[tactic(auto, unfolding(crate::specs::Strings::units_at))]
fn units(bytes: &[u8]) -> Option<(u32, &[u8])>
    ensures value { option_map (λ x. (x.0, x.1.now)) result ≡ units_at bytes.now }
    ensures scalar { IfSome result (λ x. IsScalar x.0) }
{
    let (unit, rest) = unit(bytes)?;
    if 0xD800 <= unit && unit < 0xDC00 {
        return low(unit, rest);
    }
    if 0xDC00 <= unit && unit < 0xE000 {
        return None;
    }
    Some((unit, rest))
}

fn short(byte: u8) -> Option<u32>
    ensures value { result ≡ short_escape byte }
    ensures small { IfSome result (λ c. c < 128) }
{
    match byte {
        b'"' | b'\\' | b'/' => Some(u32::from(byte)),
        b'b' => Some(0x08),
        b'f' => Some(0x0C),
        b'n' => Some(u32::from(b'\n')),
        b'r' => Some(u32::from(b'\r')),
        b't' => Some(u32::from(b'\t')),
        _ => None,
    }
}

/// The character of an escape, from behind its reverse solidus.
#[tactic(auto, unfolding(crate::specs::Strings::escape_at))]
pub fn escape(bytes: &[u8]) -> Option<(u32, &[u8])>
    ensures value { option_map (λ x. (x.0, x.1.now)) result ≡ escape_at bytes.now }
    ensures scalar { IfSome result (λ x. IsScalar x.0) }
{
    match bytes {
        [b'u', rest @ ..] => units(rest),
        [byte, rest @ ..] => {
            let character = short(*byte)?;
            Some((character, rest))
        }
        [] => None,
    }
}
