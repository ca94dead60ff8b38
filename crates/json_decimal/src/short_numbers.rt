//! Numbers that end within a block, which most do. Others are read byte by byte.
ghost use Rattle.std.specs.Prelude.{◌≡◌, ◌<◌, ◌≤◌, ◌++◌, ◌∷◌, [], map, take, drop, length, Some, IfSome};
ghost use Rattle.std.specs.Bool.{OnTrue};
ghost use Rattle.std.specs.Simd.Lanes.{mask_l};
ghost use Rattle.json_decimal.specs.Characters.{is_e};
ghost use Rattle.json_decimal.specs.Numbers.{is_other, after_digits, after_int, after_minus, after_number};

use crate::blocks::{BLOCK, others};

/// How many bytes a minus takes, where one stands.
#[inline(always)]
fn minus_len(bytes: &[u8]) -> usize
    ensures after { after_minus bytes.now ≡ drop result bytes.now }
    ensures within { result ≤ 1 }
{
    match bytes {
        [b'-', ..] => 1,
        _ => 0,
    }
}

/// Where the digits from a place on end, or the end of the first block, if they don't end before
/// it.
#[inline(always)]
fn digits_end(bytes: &[u8], others: u64, from: usize) -> usize
    requires block { 16 ≤ length bytes.now }
    requires mask { others ≡ mask_l (map is_other (take 16 bytes.now ++ 0 ∷ [])) }
    requires from { from ≤ 16 }
    ensures end { result < 16 → after_digits (drop from bytes.now) ≡ drop result bytes.now }
    ensures from { from ≤ result }
    ensures to { result ≤ 16 }
{
    from + (others >> from).trailing_zeros() as usize
}

/// Whether digits are those before a fraction: there are some, and more than one don't begin with a
/// zero.
#[inline(always)]
fn are_int(bytes: &[u8], from: usize, end: usize) -> bool
    requires from { from ≤ end }
    requires end { end < length bytes.now }
    ensures { OnTrue result (after_digits (drop from bytes.now) ≡ drop end bytes.now
        → after_int (drop from bytes.now) ≡ Some (drop end bytes.now)) }
{
    from < end && (end == from + 1 || bytes[from] != b'0')
}

/// Whether an exponent begins so.
#[inline(always)]
fn is_e(byte: u8) -> bool
    ensures { result ≡ is_e byte }
{
    matches!(byte, b'e' | b'E')
}

/// How many bytes spell the number here, if it has no exponent and ends within the first block.
#[inline(always)]
pub fn short_number_len(bytes: &[u8]) -> Option<usize>
    ensures read { IfSome result (λ len. after_number bytes.now ≡ Some (drop len bytes.now)) }
    ensures within { IfSome result (λ len. len ≤ length bytes.now) }
{
    let others = others(bytes.first_chunk::<BLOCK>()?);
    let first = minus_len(bytes);
    let int_end = digits_end(bytes, others, first);
    if int_end == BLOCK || !are_int(bytes, first, int_end) {
        return None;
    }
    if bytes[int_end] != b'.' {
        return if is_e(bytes[int_end]) {
            None
        } else {
            Some(int_end)
        };
    }
    let end = digits_end(bytes, others, int_end + 1);
    if end == BLOCK || end == int_end + 1 || is_e(bytes[end]) {
        return None;
    }
    Some(end)
}
