//! Numbers whose value is whole.

ghost use Rattle.std.specs.Prelude.{◌≡◌, ◌≤◌, option_map};
ghost use Rattle.fixed_geometry.specs.Decimal.{with_sign};
ghost use Rattle.json_decimal.specs.WholeNumbers.{as_told, clamped, whole_value};

use crate::limits::{WHOLE_LIMIT, WIDE_LIMIT};
use crate::places::{has_minus, mantissa_and_exponent, places_before_point, size_of};

/// A number whose value is whole.
#[derive(Clone, Copy, Debug, PartialEq, Eq)]
pub enum Whole {
    /// The value; its size is at most `WHOLE_LIMIT`.
    Is(i64),
    /// A value of a greater size.
    Beyond,
}

/// The value that a number's text spells, if it is whole: `4`, `4.0`, `40e-1` and `0.4E+1` are the
/// same one.
pub fn whole_of(text: &str) -> Option<Whole>
    ensures { result ≡ option_map as_told (whole_value text.now) }
{
    let (mantissa, exponent) = mantissa_and_exponent(text.as_bytes());
    let size = size_of(mantissa, places_before_point(mantissa, exponent))?;
    Some(told(has_minus(mantissa), size))
}

/// The same value in 128 bits. One whose size is greater than `WIDE_LIMIT` becomes that limit, under
/// its sign.
pub fn clamped_whole_of(text: &str) -> Option<i128>
    ensures { result ≡ option_map clamped (whole_value text.now) }
{
    let (mantissa, exponent) = mantissa_and_exponent(text.as_bytes());
    let size = size_of(mantissa, places_before_point(mantissa, exponent))?;
    Some(signed(has_minus(mantissa), size.min(WIDE_LIMIT)))
}

/// The number of this size, below zero where `negative` says so.
fn signed(negative: bool, size: u128) -> i128
    requires { size ≤ WIDE_LIMIT }
    ensures { result ≡ with_sign negative size }
{
    if negative {
        -(size as i128)
    } else {
        size as i128
    }
}

/// The number of this size, below zero where `negative` says so.
fn told(negative: bool, size: u128) -> Whole
    ensures { result ≡ as_told (with_sign negative size) }
{
    if size > u128::from(WHOLE_LIMIT) {
        return Whole::Beyond;
    }
    Whole::Is(if negative {
        -(size as i64)
    } else {
        size as i64
    })
}
