//! Texts that are written from their last byte to their first, so that each number's digits are
//! written where they stay. Without room they aren't written.

ghost use Rattle.std.specs.Prelude.{◌≡◌, ◌≤◌, ◌++◌, IfSome, IsUtf8, decimal, drop, length};

use itoa::write_digits;

/// How many digits a number has at most.
const DIGITS: usize = 10;

/// Writes bytes so that they end at `end`, and answers where they start.
fn place_bytes(bytes: &mut [u8], end: usize, text: &[u8]) -> usize
    requires room { length text.now ≤ end }
    requires within { end ≤ length bytes.old }
    ensures within { result ≤ end }
    ensures written { drop result bytes.new ≡ text.now ++ drop end bytes.old }
{
    let start = end - text.len();
    bytes[start..end].copy_from_slice(text);
    start
}

/// Writes a text so that it ends at `end`, and answers where it starts.
pub(crate) fn place_text(bytes: &mut [u8], end: usize, text: &str) -> Option<usize>
    requires within { end ≤ length bytes.old }
    requires utf8 { IsUtf8 (drop end bytes.old) }
    ensures within { IfSome result (λ start. start ≤ end) }
    ensures written { IfSome result
        (λ start. drop start bytes.new ≡ text.now ++ drop end bytes.old) }
    ensures utf8 { IfSome result (λ start. IsUtf8 (drop start bytes.new)) }
{
    if end < text.len() {
        return None;
    }
    Some(place_bytes(bytes, end, text.as_bytes()))
}

/// The same of a number in decimal.
#[inline(always)]
pub(crate) fn place_number(bytes: &mut [u8], end: usize, number: u32) -> Option<usize>
    requires within { end ≤ length bytes.old }
    requires utf8 { IsUtf8 (drop end bytes.old) }
    ensures within { IfSome result (λ start. start ≤ end) }
    ensures written { IfSome result
        (λ start. drop start bytes.new ≡ decimal number ++ drop end bytes.old) }
    ensures utf8 { IfSome result (λ start. IsUtf8 (drop start bytes.new)) }
{
    if end < DIGITS {
        return None;
    }
    Some(write_digits(number as u64, bytes, end))
}
