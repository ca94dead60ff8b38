//! The lines of metadata.

ghost use Rattle.std.specs.Prelude.{◌≡◌, ◌++◌, OnOk};
ghost use Rattle.std.specs.Fmt.{signed_decimal};
ghost use Rattle.meta_tables.specs.Seen.{cell_seen};
ghost use Rattle.tile_metadata.specs.Lines as lines;

use itoa::Buffer;
use json_decimal::print_text;
use meta_tables::{Cell, TableError};
use std::alloc::AllocError;

/// Puts the line `meta NAME PROPERTY VALUE` in place of what the vector held.
#[tactic(auto, unfolding(crate::specs::Lines::meta_line))]
pub fn write_meta_line(
    line: &mut Vec<u8>,
    name: &str,
    property: &str,
    cell: Cell<'_>,
) -> Result<(), AllocError>
    ensures { OnOk result (line.new.items
        ≡ lines.meta_line name.now property.now (cell_seen cell.entry)) }
{
    line.clear();
    line.extend_from_slice(b"meta ")?;
    line.extend_from_slice(name.as_bytes())?;
    line.extend_from_slice(b" ")?;
    line.extend_from_slice(property.as_bytes())?;
    line.extend_from_slice(b" ")?;
    push_cell(line, cell)?;
    line.extend_from_slice(b"\n")
}

/// Adds the text of a cell.
fn push_cell(line: &mut Vec<u8>, cell: Cell<'_>) -> Result<(), AllocError>
    ensures { OnOk result (line.new.items ≡ line.old.items ++ lines.cell_text (cell_seen cell.entry)) }
{
    match cell {
        Cell::Whole { value } => push_number(line, value),
        Cell::Truth { value: true } => line.extend_from_slice(b"true"),
        Cell::Truth { value: false } => line.extend_from_slice(b"false"),
        Cell::Words { text } => print_text(text, line),
        Cell::Named { name } => print_text(name.as_str(), line),
        Cell::Unnamed { value } => {
            line.extend_from_slice(b"unnamed ")?;
            push_number(line, value)
        }
        Cell::Skipped => line.extend_from_slice(b"skipped"),
    }
}

fn push_number(line: &mut Vec<u8>, number: i128) -> Result<(), AllocError>
    ensures { OnOk result (line.new.items ≡ line.old.items ++ signed_decimal number) }
{
    let mut digits = Buffer::new();
    line.extend_from_slice(digits.format(number).as_bytes())
}

/// Puts the line `table NAME CAUSE` in place of what the vector held.
#[tactic(auto, unfolding(crate::specs::Lines::table_line))]
pub fn write_table_line(line: &mut Vec<u8>, name: &str, cause: TableError) -> Result<(), AllocError>
    ensures { OnOk result (line.new.items ≡ lines.table_line name.now cause) }
{
    line.clear();
    line.extend_from_slice(b"table ")?;
    line.extend_from_slice(name.as_bytes())?;
    line.extend_from_slice(b" ")?;
    line.extend_from_slice(cause_name(cause).as_bytes())?;
    line.extend_from_slice(b"\n")
}

fn cause_name(cause: TableError) -> &'static str
    ensures { result.now ≡ lines.table_cause cause }
{
    match cause {
        TableError::Shape => "Shape",
        TableError::UnknownClass => "UnknownClass",
        TableError::ViewRange => "ViewRange",
        TableError::Offsets => "Offsets",
        TableError::NotUtf8 => "NotUtf8",
        TableError::OutOfMemory => "OutOfMemory",
    }
}
