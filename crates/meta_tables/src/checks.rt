//! What the bytes of a column have to be (OGC 22-025r4, "Binary table format").

ghost use Rattle.std.specs.Prelude.{◌≡◌, length};
ghost use Rattle.meta_schema.specs.Schemas.{enum_numbered};
ghost use Rattle.meta_tables.specs.Checks as spec;
ghost use Rattle.meta_tables.specs.Seen.{column_seen};

use crate::column::Column;
use crate::error::TableError;
use crate::offsets::{are_offsets, are_utf8, offset_size};
use meta_schema::{PropertyType, Schema};

/// There are at least so many bytes.
fn check_bytes(needed: u64, bytes: &[u8]) -> Result<(), TableError>
    ensures { result ≡ spec.has_bytes needed (length bytes.now) }
{
    if needed <= bytes.len() as u64 {
        return Ok(());
    }
    Err(TableError::ViewRange)
}

fn check_texts(count: u32, column: Column<'_>) -> Result<(), TableError>
    ensures { result ≡ spec.text_checks count (column_seen column.entry) }
{
    let size = offset_size(column.offset_type) as u64;
    check_bytes((u64::from(count) + 1) * size, column.offsets)?;
    if !are_offsets(column.offset_type, column.offsets, column.values, count) {
        return Err(TableError::Offsets);
    }
    if !are_utf8(column.offset_type, column.offsets, column.values, count) {
        return Err(TableError::NotUtf8);
    }
    Ok(())
}

/// How many bytes a value of the enum of this number has.
fn enum_size(schema: &Schema, number: u32) -> u8
    ensures { result ≡ spec.enum_size (enum_numbered number schema.now.enums) }
{
    match schema.enum_at(number) {
        Some(of) => of.component().byte_count(),
        None => 0,
    }
}

/// The column has what so many rows need.
pub fn check(schema: &Schema, count: u32, column: Column<'_>) -> Result<(), TableError>
    ensures { result ≡ spec.checks schema.now count (column_seen column.entry) }
{
    let rows = u64::from(count);
    match column.kind {
        PropertyType::Whole { component } => {
            check_bytes(rows * u64::from(component.byte_count()), column.values)
        }
        PropertyType::Boolean => check_bytes(rows.div_ceil(8), column.values),
        PropertyType::Words => check_texts(count, column),
        PropertyType::Enum { number } => {
            check_bytes(rows * u64::from(enum_size(schema, number)), column.values)
        }
        PropertyType::Skipped => Ok(()),
    }
}
