//! Rounded quotients of whole numbers, and the coordinate nearest to a number.

ghost use Rattle.std.specs.Prelude.{◌≡◌, ◌≤◌, ◌<◌, ◌+◌, ◌*◌, ◌/◌, unsigned_abs};
ghost use Rattle.fixed_geometry.specs.Points.{coordinate_limit};
ghost use Rattle.fixed_geometry.specs.Quotient as quotients;
ghost use Rattle.fixed_geometry.specs.Quotient.{AreOperands, operand_limit};

use crate::limits::COORDINATE_LIMIT;

/// `n / d` to the nearest whole number, a half away from zero.
pub fn half(n: i128, d: u128) -> i128
    requires { AreOperands n d }
    ensures value { result ≡ quotients.half n d }
    ensures bound { unsigned_abs result ≤ unsigned_abs n }

    // No whole number is nearer, and of two that are as near this is the one farther from zero.
    ensures at_most { 2 * (unsigned_abs result * d) ≤ 2 * unsigned_abs n + d }
    ensures at_least { 2 * unsigned_abs n + d < 2 * ((unsigned_abs result + 1) * d) }
{
    let size = quotient(2 * n.unsigned_abs() + d, 2 * d);
    with_sign_of(n, size)
}

/// `n / d` to the next whole number away from zero.
pub fn up(n: i128, d: u128) -> i128
    requires { AreOperands n d }
    ensures value { result ≡ quotients.up n d }
    ensures bound { unsigned_abs result ≤ unsigned_abs n }

    // The quotient's size is not above this, and less than one below it.
    ensures at_least { unsigned_abs n ≤ unsigned_abs result * d }
    ensures at_most { unsigned_abs result * d < unsigned_abs n + d }
{
    let size = (n.unsigned_abs() + (d - 1)) / d;
    with_sign_of(n, size)
}

/// `n / d`, rounded down. Where both fit 64 bits, so does the division, which is then much faster.
fn quotient(n: u128, d: u128) -> u128
    requires { 0 < d }
    ensures { result ≡ n / d }
{
    match (u64::try_from(n), u64::try_from(d)) {
        (Ok(n), Ok(d)) => u128::from(n / d),
        _ => n / d,
    }
}

fn with_sign_of(n: i128, size: u128) -> i128
    requires { size ≤ operand_limit }
    ensures value { result ≡ quotients.signed_as n size }
    ensures bound { unsigned_abs result ≡ size }
{
    if n < 0 { -(size as i128) } else { size as i128 }
}

/// The coordinate nearest to `n`: at most 2^36 millimetres in size.
pub fn clamp(n: i128) -> i64
    ensures value { result ≡ quotients.clamp n }
    ensures bound { unsigned_abs result ≤ coordinate_limit }
{
    n.clamp(-i128::from(COORDINATE_LIMIT), i128::from(COORDINATE_LIMIT)) as i64
}
