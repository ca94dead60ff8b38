//! The digits of a decimal that stand before its point, once an exponent has moved it.

ghost use Rattle.std.specs.Prelude.{◌≡◌, ◌≤◌, length, ◌+◌, ◌-◌, ◌*◌, ◌^◌, min, if◌then◌else◌, option_map};
ghost use Rattle.std.specs.List.{before_first, position_or_len};
ghost use Rattle.fixed_geometry.specs.Decimal as decimal;
ghost use Rattle.fixed_geometry.specs.Decimal.{is_exponent_mark, is_point, digit_count, digits_value};
ghost use Rattle.json_decimal.specs.WholeSizes.{exact_quotient};

/// So many zeros behind a digit are more than 128 bits hold.
const MOST_ZEROS: u64 = 39;

/// The mantissa, and the exponent from its mark on.
pub fn mantissa_and_exponent(text: &[u8]) -> (&[u8], &[u8])
    ensures mantissa { result.0.now ≡ decimal.mantissa text.now }
    ensures exponent { result.1.now ≡ decimal.exponent text.now }
{
    text.split_at(exponent_place(text))
}

/// Where the exponent's mark stands, or the length.
fn exponent_place(text: &[u8]) -> usize
    ensures place { result ≡ position_or_len is_exponent_mark text.now }
    ensures within { result ≤ length text.now }
{
    text.iter()
        .take_while(|byte| !matches!(**byte, b'e' | b'E'))
        .count()
}

pub fn has_minus(bytes: &[u8]) -> bool
    ensures { result ≡ decimal.has_minus bytes.now }
{
    bytes.iter().any(|byte| *byte == b'-')
}

/// How many digits of the mantissa stand before the point, with the exponent counted in, clamped to
/// 64 bits. There may be fewer digits than that.
pub fn places_before_point(mantissa: &[u8], exponent: &[u8]) -> u64
    ensures { let places = digit_count (before_first is_point mantissa.now) in
        let moved = digits_value exponent.now in
        result ≡ min (if decimal.has_minus exponent.now then places - moved else places + moved)
        u64.MAX }
{
    let places = whole_digits(mantissa) as u64;
    let moved = exponent_size(exponent);
    if has_minus(exponent) {
        places.saturating_sub(moved)
    } else {
        places.saturating_add(moved)
    }
}

/// How many digits of the mantissa stand before its own point.
fn whole_digits(mantissa: &[u8]) -> usize
    ensures { result ≡ digit_count (before_first is_point mantissa.now) }
{
    mantissa
        .iter()
        .take_while(|byte| **byte != b'.')
        .filter(|byte| byte.is_ascii_digit())
        .count()
}

/// The number that the exponent's digits spell, clamped to 64 bits.
fn exponent_size(exponent: &[u8]) -> u64
    ensures { result ≡ min (digits_value exponent.now) u64.MAX }
{
    let mut value: u64 = 0;
    for byte in exponent {
        if byte.is_ascii_digit() {
            value = with_digit(value, *byte - b'0');
        }
    }
    value
}

/// The number with one more digit behind it, clamped to 64 bits.
fn with_digit(value: u64, digit: u8) -> u64
    ensures { result ≡ min (10 * value + digit) u64.MAX }
{
    value.saturating_mul(10).saturating_add(u64::from(digit))
}

/// The number that the first `places` digits of a mantissa spell, with zeros behind them where there
/// are fewer, clamped to 128 bits; or none where a digit behind them is not zero.
pub fn size_of(mantissa: &[u8], places: u64) -> Option<u128>
    ensures { let count = digit_count mantissa.now in
        let size = exact_quotient (digits_value mantissa.now * 10 ^ (places - count))
        (10 ^ (count - places)) in
        result ≡ option_map (λ n. min n u128.MAX) size }
{
    let mut left = places;
    let mut value: u128 = 0;
    let mut is_whole = true;
    for byte in mantissa {
        if byte.is_ascii_digit() {
            if left > 0 {
                value = with_wide_digit(value, *byte - b'0');
                left -= 1;
            } else {
                is_whole &= *byte == b'0';
            }
        }
    }
    if is_whole {
        Some(with_zeros(value, left))
    } else {
        None
    }
}

/// The number with one more digit behind it, clamped to 128 bits.
fn with_wide_digit(value: u128, digit: u8) -> u128
    ensures { result ≡ min (10 * value + digit) u128.MAX }
{
    value.saturating_mul(10).saturating_add(u128::from(digit))
}

/// `value` with `zeros` zeros behind it, clamped to 128 bits.
fn with_zeros(value: u128, zeros: u64) -> u128
    ensures { result ≡ min (value * 10 ^ zeros) u128.MAX }
{
    value.saturating_mul(10u128.saturating_pow(zeros.min(MOST_ZEROS) as u32))
}
