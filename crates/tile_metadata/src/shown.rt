//! What is printed of a node.

ghost use Rattle.std.specs.Prelude.{◌≡◌, ◌<◌, [], OnOk, length, option_map, slice_index_or};
ghost use Rattle.meta_tables.specs.Rows as rows;
ghost use Rattle.tile_metadata.specs.Lines.{row_lines};
ghost use Rattle.tile_metadata.specs.Shown.{HasShown, lines_at, lines_shown, read_in};

use crate::lines::{write_meta_line, write_table_line};
use crate::open_table::OpenTable;
use meta_tables::{Table, TableError};
use std::alloc::AllocError;
use subtree_binary::Subtree;
use tile_types::Text;

/// What is printed of a node: nothing, why its subtree's table isn't read, or its row.
#[derive(Drop)]
pub(crate) enum Shown {
    Nothing,
    Cause { name: Text, cause: TableError },
    Row { name: Text, row: u64 },
}

/// The row of the tile of an index in its subtree.
fn row_at(subtree: &Subtree, index: u64) -> u64
    ensures { result ≡ rows.row_of subtree.now.tiles index }
{
    let tiles = subtree.tiles();
    if index < tiles.len() {
        tiles.rank(index)
    } else {
        tiles.rank(tiles.len())
    }
}

/// What is shown of the tile of an index in its subtree, whose table is open.
pub(crate) fn show(
    current: &Option<OpenTable<'_>>,
    subtree: &Subtree,
    index: u64,
    name: Text,
) -> Shown
    ensures lines { lines_shown current.now result ≡ lines_at name index subtree.now current.now }
    ensures shown { HasShown current.now result }
{
    let Some(current) = current else {
        return Shown::Nothing;
    };
    match &current.opened {
        None => Shown::Nothing,
        Some(Err(cause)) => {
            if index == 0 {
                Shown::Cause {
                    name,
                    cause: *cause,
                }
            } else {
                Shown::Nothing
            }
        }
        Some(Ok(table)) => {
            let row = row_at(subtree, index);
            if row < table.count() {
                Shown::Row { name, row }
            } else {
                Shown::Nothing
            }
        }
    }
}

/// The table that is open, if it is read.
fn table_in<'t, 'a>(current: &'t Option<OpenTable<'a>>) -> Option<&'t Table<'a>>
    ensures { option_map (λ t. t.now) result ≡ read_in current.now }
{
    match current {
        Some(
            OpenTable {
                opened: Some(Ok(table)),
                ..
            },
        ) => Some(table),
        _ => None,
    }
}

/// How many lines are shown.
pub(crate) fn line_count(current: &Option<OpenTable<'_>>, shown: &Shown) -> usize
    ensures { result ≡ length (lines_shown current.now shown.now) }
{
    match shown {
        Shown::Nothing => 0,
        Shown::Cause { .. } => 1,
        Shown::Row { .. } => match table_in(current) {
            Some(table) => table.columns() as usize,
            None => 0,
        },
    }
}

/// Puts the line of a column of a row in place of what the vector held.
fn write_cell(
    table: &Table<'_>,
    name: &Text,
    row: u64,
    column: u64,
    line: &mut Vec<u8>,
) -> Result<(), AllocError>
    requires row { row < table.now.count }
    requires column { column < length table.now.columns }
    ensures { OnOk result (line.new.items
        ≡ slice_index_or (row_lines name.now table.now row) column []) }
{
    let property = table.column_name(column).as_str();
    write_meta_line(line, name.as_str(), property, table.cell(row, column))
}

/// Puts the line of this number, from 0, in place of what the vector held.
pub(crate) fn write_line(
    current: &Option<OpenTable<'_>>,
    shown: &Shown,
    i: usize,
    line: &mut Vec<u8>,
) -> Result<(), AllocError>
    requires shown { HasShown current.now shown.now }
    requires within { i < length (lines_shown current.now shown.now) }
    ensures { OnOk result (line.new.items ≡ slice_index_or (lines_shown current.now shown.now) i []) }
{
    match shown {
        Shown::Nothing => Ok(()),
        Shown::Cause { name, cause } => write_table_line(line, name.as_str(), *cause),
        Shown::Row { name, row } => match table_in(current) {
            Some(table) => write_cell(table, name, *row, i as u64, line),
            None => Ok(()),
        },
    }
}
