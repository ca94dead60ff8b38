//! Decimals as whole numbers of a fixed number of places.

ghost use Rattle.std.specs.Prelude.{◌≡◌, ◌≤◌, ◌<◌, ◌↔◌, ◌≤ℤ◌, pos, unsigned_abs, IfOk, IsOk, IsErr};
ghost use Rattle.fixed_geometry.specs.Decimal.{fixed, fixed_size, has_minus, mantissa, with_sign};
ghost use Rattle.fixed_geometry.specs.Decimal.{places_limit, scaled_limit, SameUpTo};

mod clamped;
mod common;
mod general;

use crate::limits::SCALED_LIMIT;
pub use clamped::scaled_clamped;
use common::read_common;
use general::read_general;

/// The answer of [`scaled`] where the number passes the limit.
#[derive(Clone, Copy, Debug, PartialEq, Eq)]
pub struct OutOfRange;

/// A decimal in fixed places: its sign, and its size, which counts only up to the ceiling.
#[derive(Clone, Copy)]
pub(crate) struct Reading {
    negative: bool,
    size: u64,
}

/// Sizes from here on are all alike: this is more than any limit.
pub(crate) const SIZE_CEILING: u64 = SCALED_LIMIT + 1;

/// The decimal that `text` spells (RFC 8259, section 6), times `10^places`, to the nearest whole
/// number, a half away from zero. `OutOfRange` where that is greater than `max` in size.
///
/// With 3 places a text of metres gives millimetres, with 9 a text of parts gives 10^-9 parts.
pub fn scaled(text: &str, places: u8, max: i128) -> Result<i128, OutOfRange>
    requires places { places ≤ places_limit }
    requires max_from { pos 0 ≤ℤ max }
    requires max_to { max ≤ℤ pos scaled_limit }
    ensures value { IfOk result (λ n. n ≡ fixed text.now places) }
    ensures in_range { IsOk result ↔ (fixed_size text.now places ≤ unsigned_abs max) }
    ensures out_of_range { IsErr result ↔ (unsigned_abs max < fixed_size text.now places) }
{
    let read = read(text.as_bytes(), places);
    if read.size > max as u64 {
        return Err(OutOfRange);
    }
    Ok(i128::from(signed(read.negative, read.size)))
}

/// The decimal in fixed places: few numbers are spelled otherwise than in the common way.
fn read(text: &[u8], places: u8) -> Reading
    requires { places ≤ places_limit }
    ensures negative { result.negative ≡ has_minus (mantissa text.now) }
    ensures size { SameUpTo SIZE_CEILING result.size (fixed_size text.now places) }
{
    match read_common(text, places) {
        Some(read) => read,
        None => read_general(text, places),
    }
}

fn signed(negative: bool, size: u64) -> i64
    requires { size ≤ scaled_limit }
    ensures { result ≡ with_sign negative size }
{
    if negative {
        -(size as i64)
    } else {
        size as i64
    }
}
