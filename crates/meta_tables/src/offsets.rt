//! Where the texts of a column begin and end (OGC 22-025r4, "Strings").

ghost use Rattle.std.specs.Prelude.{◌≡◌, ◌≤◌, ◌+◌, ◌*◌, ◌<◌, length, true, IsTrue, ◌↔◌, ℕ};
ghost use Rattle.std.specs.List.{list_all, range_with_len};
ghost use Rattle.json_decimal.specs.Handles.{text_in};
ghost use Rattle.meta_tables.specs.Offsets as spec;
ghost use Rattle.meta_tables.specs.Boundaries.{AreBoundaries};
ghost use Rattle.meta_tables.specs.Offsets.{HasText};

use crate::offset_type::OffsetType;
use byteorder::{ByteOrder, LittleEndian};
use json_decimal::JsonString;

/// How many bytes an offset has.
#[inline(always)]
pub fn offset_size(offset_type: OffsetType) -> usize
    ensures { result ≡ spec.offset_size offset_type }
{
    match offset_type {
        OffsetType::Uint8 => 1,
        OffsetType::Uint16 => 2,
        OffsetType::Uint32 => 4,
        OffsetType::Uint64 => 8,
    }
}

/// The type that a text names.
pub fn offset_type_named(name: JsonString<'_>) -> Option<OffsetType>
    ensures { result ≡ spec.offset_type_named (text_in name.entry) }
{
    if name.is("UINT8") {
        Some(OffsetType::Uint8)
    } else if name.is("UINT16") {
        Some(OffsetType::Uint16)
    } else if name.is("UINT32") {
        Some(OffsetType::Uint32)
    } else if name.is("UINT64") {
        Some(OffsetType::Uint64)
    } else {
        None
    }
}

/// Offset `i` of the bytes of offsets.
#[inline(always)]
pub fn offset_at(offset_type: OffsetType, offsets: &[u8], i: usize) -> u64
    requires { (i + 1) * spec.offset_size offset_type ≤ length offsets.now }
    ensures { result ≡ spec.offset_at offset_type offsets.now i }
{
    match offset_type {
        OffsetType::Uint8 => u64::from(offsets[i]),
        OffsetType::Uint16 => u64::from(LittleEndian::read_u16(&offsets[i * 2..])),
        OffsetType::Uint32 => u64::from(LittleEndian::read_u32(&offsets[i * 4..])),
        OffsetType::Uint64 => LittleEndian::read_u64(&offsets[i * 8..]),
    }
}

/// The offsets of so many rows fall nowhere.
fn rise(offset_type: OffsetType, offsets: &[u8], count: u32) -> bool
    requires { (count + 1) * spec.offset_size offset_type ≤ length offsets.now }
    ensures { result ≡ list_all (spec.rises_at offset_type offsets.now) (range_with_len 0 count) }
{
    let rows = count as usize;
    let mut row = 0;
    let mut before = offset_at(offset_type, offsets, 0);
    while row < rows {
        let next = offset_at(offset_type, offsets, row + 1);
        if next < before {
            return false;
        }
        before = next;
        row += 1;
    }
    true
}

/// The offsets of so many rows fall nowhere, and the last doesn't pass the values.
pub fn are_offsets(offset_type: OffsetType, offsets: &[u8], values: &[u8], count: u32) -> bool
    requires { (count + 1) * spec.offset_size offset_type ≤ length offsets.now }
    ensures { result ≡ spec.are_offsets offset_type offsets.now values.now count }
{
    rise(offset_type, offsets, count)
        && offset_at(offset_type, offsets, count as usize) <= values.len() as u64
}

/// The bytes of the text of a row.
#[inline(always)]
pub fn text_bytes<'a>(
    offset_type: OffsetType,
    offsets: &[u8],
    values: &'a [u8],
    row: usize,
) -> &'a [u8]
    requires { HasText offset_type offsets.now values.now row }
    ensures { result.now ≡ spec.text_at offset_type offsets.now values.now row }
{
    let start = offset_at(offset_type, offsets, row) as usize;
    let end = offset_at(offset_type, offsets, row + 1) as usize;
    &values[start..end]
}

/// Each of so many offsets, counted from `start`, is between two characters of a text.
fn are_boundaries(
    offset_type: OffsetType,
    offsets: &[u8],
    start: u64,
    text: &str,
    count: u32,
) -> bool
    requires there { (count + 1) * spec.offset_size offset_type ≤ length offsets.now }
    requires above { (k : ℕ) → k < count → start ≤ spec.offset_at offset_type offsets.now k }
    ensures { IsTrue result ↔ AreBoundaries offset_type offsets.now start text.now count }
{
    let rows = count as usize;
    let mut row = 0;
    while row < rows {
        let offset = offset_at(offset_type, offsets, row) - start;
        if !text.is_char_boundary(offset as usize) {
            return false;
        }
        row += 1;
    }
    true
}

/// Each of so many texts is UTF-8: all of them together are, and none begins inside a character.
pub fn are_utf8(offset_type: OffsetType, offsets: &[u8], values: &[u8], count: u32) -> bool
    requires there { (count + 1) * spec.offset_size offset_type ≤ length offsets.now }
    requires rise { spec.are_offsets offset_type offsets.now values.now count ≡ true }
    ensures { result ≡ spec.are_utf8 offset_type offsets.now values.now count }
{
    let start = offset_at(offset_type, offsets, 0);
    let end = offset_at(offset_type, offsets, count as usize);
    match str::from_utf8(&values[start as usize..end as usize]) {
        Ok(text) => are_boundaries(offset_type, offsets, start, text, count),
        Err(_) => false,
    }
}
