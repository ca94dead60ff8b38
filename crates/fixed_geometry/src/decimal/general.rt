//! The size of a decimal of any spelling, with an exponent of any length.

ghost use Rattle.std.specs.Prelude.{◌≡◌, ◌≤◌, ◌+◌, ◌-◌, ◌*◌, ◌/◌, ◌^◌, min, if◌then◌else◌, length};
ghost use Rattle.std.specs.List.{position_or_len};
ghost use Rattle.fixed_geometry.specs.Decimal.{is_point, is_exponent_mark, has_minus, mantissa};
ghost use Rattle.fixed_geometry.specs.Decimal.{digits_value, digit_count, fixed_size};
ghost use Rattle.fixed_geometry.specs.Decimal.{places_limit, SameUpTo};

use super::{Reading, SIZE_CEILING};

/// Exponents are clamped to this: no greater one changes the answer.
const EXPONENT_CEILING: u128 = 1 << 70;

/// Ten times the size is clamped to this, which is more than ten times any limit.
const TENFOLD_CEILING: u128 = 1 << 64;

/// The decimal in fixed places, of any spelling.
#[cold]
pub(crate) fn read_general(text: &[u8], places: u8) -> Reading
    requires { places ≤ places_limit }
    ensures negative { result.negative ≡ has_minus (mantissa text.now) }
    ensures size { SameUpTo SIZE_CEILING result.size (fixed_size text.now places) }
{
    Reading {
        negative: has_minus(&text[..exponent_place(text)]),
        size: general_size(text, places),
    }
}

/// The size of the decimal in fixed places, clamped to the ceiling.
///
/// The digit behind the last place decides how that place is rounded, so the digits up to there are
/// read, and no other.
fn general_size(text: &[u8], places: u8) -> u64
    requires { places ≤ places_limit }
    ensures { result ≡ min (fixed_size text.now places) SIZE_CEILING }
{
    let mark = exponent_place(text);
    let mantissa = &text[..mark];
    let exponent = &text[mark..];
    let whole = &mantissa[..point_place(mantissa)];
    let room = count_digits(whole) as u128 + u128::from(places) + 1;
    let keep = kept_digits(room, has_minus(exponent), exponent_size(exponent));
    let tenfold = leading_digits(mantissa, keep);
    ((tenfold + 5) / 10).min(u128::from(SIZE_CEILING)) as u64
}

/// Where the exponent's mark stands, or the length.
fn exponent_place(text: &[u8]) -> usize
    ensures place { result ≡ position_or_len is_exponent_mark text.now }
    ensures within { result ≤ length text.now }
{
    for (i, byte) in text.iter().enumerate() {
        if is_mark(*byte) {
            return i;
        }
    }
    text.len()
}

/// Whether an exponent begins here.
fn is_mark(byte: u8) -> bool
    ensures { result ≡ is_exponent_mark byte }
{
    byte == b'e' || byte == b'E'
}

/// Where the point stands, or the length.
fn point_place(mantissa: &[u8]) -> usize
    ensures place { result ≡ position_or_len is_point mantissa.now }
    ensures within { result ≤ length mantissa.now }
{
    for (i, byte) in mantissa.iter().enumerate() {
        if *byte == b'.' {
            return i;
        }
    }
    mantissa.len()
}

fn count_digits(bytes: &[u8]) -> usize
    ensures { result ≡ digit_count bytes.now }
{
    bytes.iter().filter(|byte| byte.is_ascii_digit()).count()
}

fn has_minus(bytes: &[u8]) -> bool
    ensures { result ≡ has_minus bytes.now }
{
    bytes.iter().any(|byte| *byte == b'-')
}

/// The number that the exponent's digits spell, clamped to the ceiling.
fn exponent_size(exponent: &[u8]) -> u128
    ensures { result ≡ min (digits_value exponent.now) EXPONENT_CEILING }
{
    let mut value: u128 = 0;
    for byte in exponent {
        if byte.is_ascii_digit() {
            value = (10 * value + u128::from(*byte - b'0')).min(EXPONENT_CEILING);
        }
    }
    value
}

/// How many of the mantissa's digits count, where `room` of them would with no exponent.
fn kept_digits(room: u128, divides: bool, exponent: u128) -> u128
    requires room { room ≤ 2 ^ 100 }
    requires exponent { exponent ≤ 2 ^ 100 }
    ensures { result ≡ (if divides then room - exponent else room + exponent) }
{
    if divides {
        room.saturating_sub(exponent)
    } else {
        room + exponent
    }
}

/// The number that the first `keep` digits spell, with zeros behind them where there are fewer,
/// clamped to the ceiling.
fn leading_digits(mantissa: &[u8], keep: u128) -> u128
    ensures { let count = digit_count mantissa.now in
        let kept = digits_value mantissa.now * 10 ^ (keep - count) / 10 ^ (count - keep) in
        result ≡ min kept TENFOLD_CEILING }
{
    let mut left = keep;
    let mut value: u128 = 0;
    for byte in mantissa {
        if byte.is_ascii_digit() && left > 0 {
            value = (10 * value + u128::from(*byte - b'0')).min(TENFOLD_CEILING);
            left -= 1;
        }
    }
    padded(value, left)
}

/// `value` with `zeros` zeros behind it, clamped to the ceiling.
fn padded(value: u128, zeros: u128) -> u128
    requires { value ≤ TENFOLD_CEILING }
    ensures { result ≡ min (value * 10 ^ zeros) TENFOLD_CEILING }
{
    let mut value = value;
    let mut left = zeros;
    while left > 0 && value > 0 && value < TENFOLD_CEILING {
        value = (10 * value).min(TENFOLD_CEILING);
        left -= 1;
    }
    value
}
