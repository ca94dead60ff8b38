//! Whole numbers of a column (OGC 22-025r4, "Binary table format").

ghost use Rattle.std.specs.Prelude.{◌≡◌, ◌≤◌, ◌+◌, ◌*◌, length};
ghost use Rattle.byteorder.specs.Endian.{little_number, twos_complement};
ghost use Rattle.meta_schema.specs.Schemas.{byte_count};
ghost use Rattle.meta_tables.specs.Cells as spec;

use byteorder::{ByteOrder, LittleEndian};
use meta_schema::ComponentType;

/// The number in the first 4 bytes, below zero where its highest bit is set.
#[inline]
fn signed_32(bytes: &[u8]) -> i32
    requires { 4 ≤ length bytes.now }
    ensures { result ≡ twos_complement 4 (little_number 4 bytes.now) }
{
    LittleEndian::read_i32(bytes)
}

/// The number in the first 8 bytes, below zero where its highest bit is set.
#[inline]
fn signed_64(bytes: &[u8]) -> i64
    requires { 8 ≤ length bytes.now }
    ensures { result ≡ twos_complement 8 (little_number 8 bytes.now) }
{
    LittleEndian::read_i64(bytes)
}

/// The number of a row.
#[inline]
pub fn number_at(component: ComponentType, values: &[u8], row: usize) -> i128
    requires { (row + 1) * byte_count component ≤ length values.now }
    ensures { result ≡ spec.number_at component values.now row }
{
    match component {
        ComponentType::Int8 => i128::from(values[row].cast_signed()),
        ComponentType::Uint8 => i128::from(values[row]),
        ComponentType::Int16 => i128::from(LittleEndian::read_i16(&values[row * 2..])),
        ComponentType::Uint16 => i128::from(LittleEndian::read_u16(&values[row * 2..])),
        ComponentType::Int32 => i128::from(signed_32(&values[row * 4..])),
        ComponentType::Uint32 => i128::from(LittleEndian::read_u32(&values[row * 4..])),
        ComponentType::Int64 => i128::from(signed_64(&values[row * 8..])),
        ComponentType::Uint64 => i128::from(LittleEndian::read_u64(&values[row * 8..])),
    }
}
