//! Rounded quotients by a power of two, in 64 bits: a shift in place of a division.

ghost use Rattle.std.specs.Prelude.{◌≡◌, ◌≤◌, ◌^◌, unsigned_abs};
ghost use Rattle.fixed_geometry.specs.Quotient.{half, signed_as, up};
ghost use Rattle.volumes.specs.Cells.{cell_count};
ghost use Rattle.volumes.specs.Limits.{level_limit};

/// `n / 2^level` to the nearest whole number, a half away from zero.
pub(crate) fn half_shifted(n: i64, level: u8) -> i64
    requires n { unsigned_abs n ≤ 2 ^ 62 }
    requires level { level ≤ level_limit }
    ensures value { result ≡ half n (cell_count level) }
    ensures bound { unsigned_abs result ≤ unsigned_abs n }
{
    let size = (2 * n.unsigned_abs() + (1 << level)) >> (level + 1);
    with_sign_of(n, size)
}

/// `n / 2^level` to the next whole number away from zero.
pub(crate) fn up_shifted(n: i64, level: u8) -> i64
    requires n { unsigned_abs n ≤ 2 ^ 62 }
    requires level { level ≤ level_limit }
    ensures value { result ≡ up n (cell_count level) }
    ensures bound { unsigned_abs result ≤ unsigned_abs n }
{
    let size = (n.unsigned_abs() + ((1 << level) - 1)) >> level;
    with_sign_of(n, size)
}

fn with_sign_of(n: i64, size: u64) -> i64
    requires { size ≤ 2 ^ 62 }
    ensures value { result ≡ signed_as n size }
    ensures bound { unsigned_abs result ≡ size }
{
    if n < 0 { -(size as i64) } else { size as i64 }
}
