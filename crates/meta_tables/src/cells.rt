//! The cells of a column (OGC 22-025r4, "Binary table format").

ghost use Rattle.std.specs.Str.{is_utf8};
ghost use Rattle.std.specs.Prelude.{◌≡◌, true, ◌≤◌, ◌<◌, ◌+◌, ◌*◌, IfSome, length, option_map};
ghost use Rattle.avail_bits.specs.Bitstreams.{bit_of};
ghost use Rattle.meta_schema.specs.Schemas.{byte_count};
ghost use Rattle.meta_tables.specs.Cells as spec;
ghost use Rattle.meta_tables.specs.Offsets.{HasText, text_at};
ghost use Rattle.meta_tables.specs.Seen.{HasRow, cell_seen, column_seen};

use crate::cell::Cell;
use crate::column::Column;
use crate::numbers::number_at;
use crate::offsets::text_bytes;
use meta_schema::{Enum, PropertyType, Schema};

/// The bit of a row, counted in each byte from the lowest.
#[inline]
fn bit_at(values: &[u8], row: usize) -> bool
    requires { row < 8 * length values.now }
    ensures { result ≡ bit_of values.now row }
{
    values[row / 8] >> (row % 8) & 1 == 1
}

/// The text of a row.
#[inline]
fn text_of<'a>(column: Column<'a>, row: usize) -> &'a str
    requires there { HasText column.offset_type column.offsets.now
        column.values.now row }
    requires utf8 { is_utf8 (text_at column.offset_type column.offsets.now
        column.values.now row) ≡ true }
    ensures { result.now ≡ text_at column.entry.offset_type column.entry.offsets.now
        column.entry.values.now row }
{
    let bytes = text_bytes(column.offset_type, column.offsets, column.values, row);
    // Each text was checked when the table was read.
    unsafe { str::from_utf8_unchecked(bytes) }
}

/// The cell of a row of an enum's values.
#[inline]
fn enum_cell<'a>(of: Option<&'a Enum>, values: &[u8], row: usize) -> Cell<'a>
    requires { IfSome of (λ e. (row + 1) * byte_count e.now.component ≤ length values.now) }
    ensures { cell_seen result ≡ spec.enum_cell values.now row (option_map (λ e. e.now) of.entry) }
{
    let Some(of) = of else {
        return Cell::Skipped;
    };
    let value = number_at(of.component(), values, row);
    match of.name_of(value) {
        Some(name) => Cell::Named { name },
        None => Cell::Unnamed { value },
    }
}

/// The cell of a row.
pub fn cell_in<'a>(schema: &'a Schema, column: Column<'a>, row: usize) -> Cell<'a>
    requires { HasRow schema.now (column_seen column) row }
    ensures { cell_seen result ≡ spec.cell_in schema.now row (column_seen column.entry) }
{
    match column.kind {
        PropertyType::Whole { component } => Cell::Whole {
            value: number_at(component, column.values, row),
        },
        PropertyType::Boolean => Cell::Truth {
            value: bit_at(column.values, row),
        },
        PropertyType::Words => Cell::Words {
            text: text_of(column, row),
        },
        PropertyType::Enum { number } => enum_cell(schema.enum_at(number), column.values, row),
        PropertyType::Skipped => Cell::Skipped,
    }
}
