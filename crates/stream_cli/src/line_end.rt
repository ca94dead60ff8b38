//! What stands behind the name in the line of a tile, written from its last byte to its first: so a
//! number's digits are written where they stay.

ghost use Rattle.std.specs.Prelude.{◌≡◌, ◌≤◌, ◌<◌, ◌+◌, ◌*◌, ◌∷◌, ◌++◌, codes, drop, length};
ghost use Rattle.std.specs.Fmt.{decimal, signed_decimal};
ghost use Rattle.stream_cli.specs.Listing as listing;

use expanded_tree::NodeFacts;
use fixed_geometry::Point;
use itoa::write_digits;
use tile_types::Refine;
use volumes::Volume;

/// How many bytes a number has at most, with its sign and the mark before it.
const NUMBER_BYTES: usize = 22;

/// How many bytes a point has at most.
const POINT_BYTES: usize = 66;

/// How many bytes the end of a line has at most: 12 numbers of a box, an error and four words.
pub(crate) const END_BYTES: usize = 300;

/// Writes a word so that it ends at `end`, and answers where it starts.
fn place_word(bytes: &mut [u8], end: usize, word: &[u8]) -> usize
    requires room { length word.now ≤ end }
    requires within { end ≤ length bytes.old }
    ensures start { result + length word.now ≡ end }
    ensures written { drop result bytes.new ≡ word.now ++ drop end bytes.old }
{
    let start = end - word.len();
    bytes[start..end].copy_from_slice(word);
    start
}

/// Writes a byte that ends at `end`, and answers where it starts.
#[inline(always)]
fn place_byte(bytes: &mut [u8], end: usize, byte: u8) -> usize
    requires room { 0 < end }
    requires within { end ≤ length bytes.old }
    ensures start { result + 1 ≡ end }
    ensures written { drop result bytes.new ≡ byte ∷ drop end bytes.old }
{
    let start = end - 1;
    bytes[start] = byte;
    start
}

/// The same of a number without a sign, which has at most 20 digits.
#[inline(always)]
fn place_digits(bytes: &mut [u8], end: usize, number: u64) -> usize
    requires room { 20 ≤ end }
    requires within { end ≤ length bytes.old }
    ensures start { (result ≤ end) × (end ≤ result + 20) }
    ensures written { drop result bytes.new ≡ decimal number ++ drop end bytes.old }
{
    write_digits(number, bytes, end)
}

/// The same of a number with its sign.
#[inline(always)]
fn place_signed(bytes: &mut [u8], end: usize, number: i64) -> usize
    requires room { 21 ≤ end }
    requires within { end ≤ length bytes.old }
    ensures start { (result ≤ end) × (end ≤ result + 21) }
    ensures written { drop result bytes.new ≡ signed_decimal number ++ drop end bytes.old }
{
    let start = place_digits(bytes, end, number.unsigned_abs());
    if number >= 0 {
        return start;
    }
    place_byte(bytes, start, b'-')
}

/// The same of a mark and a number behind it.
fn place_number(bytes: &mut [u8], end: usize, mark: u8, number: i64) -> usize
    requires room { NUMBER_BYTES ≤ end }
    requires within { end ≤ length bytes.old }
    ensures start { (result ≤ end) × (end ≤ result + NUMBER_BYTES) }
    ensures written { drop result bytes.new
        ≡ mark ∷ (signed_decimal number ++ drop end bytes.old) }
{
    let at = place_signed(bytes, end, number);
    place_byte(bytes, at, mark)
}

/// The same of ` x,y,z`.
fn place_point(bytes: &mut [u8], end: usize, point: Point) -> usize
    requires room { POINT_BYTES ≤ end }
    requires within { end ≤ length bytes.old }
    ensures start { (result ≤ end) × (end ≤ result + POINT_BYTES) }
    ensures written { drop result bytes.new
        ≡ (codes " " ++ listing.point_text point) ++ drop end bytes.old }
{
    let at = place_number(bytes, end, b',', point.z);
    let at = place_number(bytes, at, b',', point.y);
    place_number(bytes, at, b' ', point.x)
}

/// The same of points, one behind the other.
fn place_points(bytes: &mut [u8], end: usize, points: &[Point]) -> usize
    requires room { length points.now * POINT_BYTES ≤ end }
    requires within { end ≤ length bytes.old }
    ensures start { (result ≤ end) × (end ≤ result + length points.now * POINT_BYTES) }
    ensures written { drop result bytes.new ≡ listing.points_text points.now ++ drop end bytes.old }
{
    let mut at = end;
    let mut left = points.len();
    while left > 0 {
        left -= 1;
        at = place_point(bytes, at, points[left]);
    }
    at
}

/// The same of a volume.
fn place_volume(bytes: &mut [u8], end: usize, volume: &Volume) -> usize
    requires room { 267 ≤ end }
    requires within { end ≤ length bytes.old }
    ensures start { (result ≤ end) × (end ≤ result + 267) }
    ensures written { drop result bytes.new ≡ listing.volume_text volume.now ++ drop end bytes.old }
{
    match volume {
        Volume::Oriented { centre, axes } => {
            let at = place_points(bytes, end, axes);
            let at = place_point(bytes, at, *centre);
            place_word(bytes, at, b"box")
        }
        Volume::Ball { centre, radius } => {
            let at = place_number(bytes, end, b' ', *radius);
            let at = place_point(bytes, at, *centre);
            place_word(bytes, at, b"sphere")
        }
    }
}

/// The same of how a tile is refined.
fn place_refine(bytes: &mut [u8], end: usize, refine: Refine) -> usize
    requires room { 7 ≤ end }
    requires within { end ≤ length bytes.old }
    ensures start { (result ≤ end) × (end ≤ result + 7) }
    ensures written { drop result bytes.new ≡ listing.refine_word refine ++ drop end bytes.old }
{
    match refine {
        Refine::Add => place_word(bytes, end, b"ADD"),
        Refine::Replace => place_word(bytes, end, b"REPLACE"),
    }
}

/// The same of a tile's volume, which is always known.
fn place_known(bytes: &mut [u8], end: usize, volume: &Option<Volume>) -> usize
    requires room { 267 ≤ end }
    requires within { end ≤ length bytes.old }
    ensures start { (result ≤ end) × (end ≤ result + 267) }
    ensures written { drop result bytes.new
        ≡ listing.known_volume_text volume.now ++ drop end bytes.old }
{
    match volume {
        Some(volume) => place_volume(bytes, end, volume),
        None => end,
    }
}

/// Writes ` REFINE ERROR VOLUME` and a line feed at the end of the bytes, and answers where they
/// start.
pub(crate) fn place_end(bytes: &mut [u8; END_BYTES], facts: &NodeFacts) -> usize
    ensures within { result ≤ END_BYTES }
    ensures written { drop result bytes.new ≡ listing.line_end facts.now }
{
    let at = place_word(bytes, END_BYTES, b"\n");
    let at = place_known(bytes, at, &facts.volume);
    let at = place_word(bytes, at, b" ");
    let at = place_digits(bytes, at, facts.error);
    let at = place_word(bytes, at, b" ");
    let at = place_refine(bytes, at, facts.refine);
    place_word(bytes, at, b" ")
}
