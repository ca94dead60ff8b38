//! Decimals that are clamped to a limit.

ghost use Rattle.std.specs.Prelude.{◌≡◌, ◌≤◌, ◌≤ℤ◌, pos, unsigned_abs};
ghost use Rattle.fixed_geometry.specs.Decimal.{clamped_fixed, places_limit, scaled_limit};

use super::{read, signed};

/// The decimal that `text` spells (RFC 8259, section 6), times `10^places`, to the nearest whole
/// number, a half away from zero, and clamped to `max` in size: what is greater becomes `max` under
/// its sign.
pub fn scaled_clamped(text: &str, places: u8, max: i128) -> i128
    requires places { places ≤ places_limit }
    requires max_from { pos 0 ≤ℤ max }
    requires max_to { max ≤ℤ pos scaled_limit }
    ensures { result ≡ clamped_fixed text.now places (unsigned_abs max) }
{
    let read = read(text.as_bytes(), places);
    i128::from(signed(read.negative, read.size.min(max as u64)))
}
