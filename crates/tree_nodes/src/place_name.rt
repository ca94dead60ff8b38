//! What the name of an implicit tile has behind that of its implicit root, written from its last
//! byte to its first: so a number's digits are written where they stay.

ghost use Rattle.std.specs.Prelude.{◌≡◌, ◌≤◌, ◌<◌, ◌+◌, ◌∷◌, ◌++◌, [], if◌then◌else◌, IsUtf8, codes, decimal, drop, length};
ghost use Rattle.tree_expansion.specs.Expansion.{place_numbers};

use implicit_walk::Place;
use itoa::write_digits;

/// How many bytes a number has at most, with the mark before it.
const NUMBER_BYTES: usize = 11;

/// How many bytes a level and three numbers have at most.
pub(crate) const PLACE_BYTES: usize = 44;

/// Writes a byte that ends at `end`, and answers where it starts.
#[inline(always)]
fn place_byte(bytes: &mut [u8], end: usize, byte: u8) -> usize
    requires room { 0 < end }
    requires within { end ≤ length bytes.old }
    ensures start { result + 1 ≡ end }
    ensures written { drop result bytes.new ≡ byte ∷ drop end bytes.old }
{
    let start = end - 1;
    bytes[start] = byte;
    start
}

/// The same of a number, which has at most 10 digits.
#[inline(always)]
fn place_digits(bytes: &mut [u8], end: usize, number: u32) -> usize
    requires room { 10 ≤ end }
    requires within { end ≤ length bytes.old }
    ensures start { (result ≤ end) × (end ≤ result + 10) }
    ensures written { drop result bytes.new ≡ decimal number ++ drop end bytes.old }
{
    write_digits(u64::from(number), bytes, end)
}

/// The same of a mark and a number behind it.
#[inline(always)]
fn place_number(bytes: &mut [u8], end: usize, mark: u8, number: u32) -> usize
    requires room { NUMBER_BYTES ≤ end }
    requires within { end ≤ length bytes.old }
    requires mark { mark < 128 }
    requires utf8 { IsUtf8 (drop end bytes.old) }
    ensures start { (result ≤ end) × (end ≤ result + NUMBER_BYTES) }
    ensures written { drop result bytes.new ≡ mark ∷ (decimal number ++ drop end bytes.old) }
    ensures utf8 { IsUtf8 (drop result bytes.new) }
{
    let start = place_digits(bytes, end, number);
    place_byte(bytes, start, mark)
}

/// Writes `.Z` at the end of the bytes, in an octree alone, and answers where it starts.
fn place_depth(bytes: &mut [u8; PLACE_BYTES], octree: bool, z: u32) -> usize
    ensures start { (result ≤ PLACE_BYTES) × (PLACE_BYTES ≤ result + NUMBER_BYTES) }
    ensures written { drop result bytes.new ≡ (if octree then codes "." ++ decimal z else []) }
    ensures utf8 { IsUtf8 (drop result bytes.new) }
{
    if octree {
        return place_number(bytes, PLACE_BYTES, b'.', z);
    }
    PLACE_BYTES
}

/// Writes `!LEVEL.X.Y`, and `.Z` in an octree, at the end of the bytes, and answers where it starts.
pub(crate) fn place_at(bytes: &mut [u8; PLACE_BYTES], octree: bool, at: Place) -> usize
    ensures within { result ≤ PLACE_BYTES }
    ensures written { drop result bytes.new
        ≡ codes "!" ++ decimal at.level ++ place_numbers octree at }
    ensures utf8 { IsUtf8 (drop result bytes.new) }
{
    let start = place_depth(bytes, octree, at.z);
    let start = place_number(bytes, start, b'.', at.y);
    let start = place_number(bytes, start, b'.', at.x);
    place_number(bytes, start, b'!', u32::from(at.level))
}
