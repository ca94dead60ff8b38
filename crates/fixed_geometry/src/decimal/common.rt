//! Decimals of the common spelling: an optional minus, digits, and perhaps a point and more digits.

ghost use Rattle.std.specs.Prelude.{◌≡◌, ◌≤◌, ◌<◌, ◌↔◌, ◌-◌, ◌*◌, ◌^◌, ◌++◌, min, length};
ghost use Rattle.std.specs.Prelude.{IsTrue, IfSome};
ghost use Rattle.std.specs.Char.{is_ascii_digit};
ghost use Rattle.fixed_geometry.specs.Ascii.{digit_zero};
ghost use Rattle.fixed_geometry.specs.Quotient.{half_size};
ghost use Rattle.fixed_geometry.specs.Spelling.{SpellsUnsigned, sign_text};
ghost use Rattle.fixed_geometry.specs.Decimal.{has_minus, mantissa, fixed_size};
ghost use Rattle.fixed_geometry.specs.Decimal.{places_limit, SameUpTo};

use super::{Reading, SIZE_CEILING};

/// The most bytes behind the minus that are read here: their digits spell a number below 10^19,
/// which fits 64 bits.
const LONGEST: usize = 19;

/// The decimal in fixed places, read in one pass, or none where it is spelled otherwise or is too
/// long.
pub(crate) fn read_common(text: &[u8], places: u8) -> Option<Reading>
    requires { places ≤ places_limit }
    ensures negative { IfSome result (λ r. r.negative ≡ has_minus (mantissa text.now)) }
    ensures size { IfSome result (λ r. SameUpTo SIZE_CEILING r.size (fixed_size text.now places)) }
{
    let (negative, number) = split_sign(text);
    if number.len() > LONGEST {
        return None;
    }
    let (value, fraction) = read_digits(number)?;
    let size = in_places(value, fraction, places);
    Some(Reading { negative, size })
}

/// Whether the text begins with a minus sign, and what stands behind it.
fn split_sign(text: &[u8]) -> (bool, &[u8])
    ensures { text.now ≡ sign_text result.0 ++ result.1.now }
{
    if !text.is_empty() && text[0] == b'-' {
        (true, &text[1..])
    } else {
        (false, text)
    }
}

/// The number that the digits spell, and how many of them stand behind the point, or none where
/// there is anything but digits and one point.
fn read_digits(number: &[u8]) -> Option<(u64, usize)>
    requires { length number.now ≤ LONGEST }
    ensures number { IfSome result (λ r. SpellsUnsigned number.now r.0 r.1) }
    ensures value { IfSome result (λ r. r.0 < 10 ^ LONGEST) }
    ensures fraction { IfSome result (λ r. r.1 ≤ LONGEST) }
{
    let mut value: u64 = 0;
    // How many bytes stand from the point on: none as long as there is no point.
    let mut tail = 0;
    for (i, byte) in number.iter().enumerate() {
        let digit = digit_of(*byte);
        if digit <= 9 {
            value = 10 * value + digit;
        } else if *byte == b'.' && tail == 0 {
            tail = number.len() - i;
        } else {
            return None;
        }
    }
    Some((value, tail.saturating_sub(1)))
}

/// The digit that a byte spells, or more than 9 where it spells none.
fn digit_of(byte: u8) -> u64
    ensures digit { IsTrue (is_ascii_digit byte) ↔ (result ≤ 9) }
    ensures value { result ≤ 9 → result ≡ byte - digit_zero }
{
    u64::from(byte).wrapping_sub(u64::from(b'0'))
}

/// The size that has `value` for its digits, `fraction` of them behind the point, in fixed places,
/// clamped to 64 bits.
fn in_places(value: u64, fraction: usize, places: u8) -> u64
    requires value { value < 10 ^ LONGEST }
    requires fraction { fraction ≤ LONGEST }
    requires places { places ≤ places_limit }
    ensures { result ≡ min (half_size (value * 10 ^ places) (10 ^ fraction)) u64.MAX }
{
    let places = usize::from(places);
    if fraction <= places {
        return value.saturating_mul(power_of_ten(places - fraction));
    }
    let unit = power_of_ten(fraction - places);
    (value + unit / 2) / unit
}

/// `10^exponent`.
fn power_of_ten(exponent: usize) -> u64
    requires { exponent ≤ LONGEST }
    ensures { result ≡ 10 ^ exponent }
{
    match exponent {
        0 => 1,
        1 => 10,
        2 => 100,
        3 => 1_000,
        4 => 10_000,
        5 => 100_000,
        6 => 1_000_000,
        7 => 10_000_000,
        8 => 100_000_000,
        9 => 1_000_000_000,
        10 => 10_000_000_000,
        11 => 100_000_000_000,
        12 => 1_000_000_000_000,
        13 => 10_000_000_000_000,
        14 => 100_000_000_000_000,
        15 => 1_000_000_000_000_000,
        16 => 10_000_000_000_000_000,
        17 => 100_000_000_000_000_000,
        18 => 1_000_000_000_000_000_000,
        _ => 10_000_000_000_000_000_000,
    }
}
