//! Property tables.

ghost use Rattle.std.specs.Prelude.{◌≡◌, ◌<◌, Some, length, option_map, slice_get};
ghost use Rattle.json_decimal.specs.Handles.{members_left};
ghost use Rattle.subtree_binary.specs.StorageSeen.{storage_seen};
ghost use Rattle.meta_tables.specs.Causes.{Gives};
ghost use Rattle.meta_tables.specs.Cells as spec;
ghost use Rattle.meta_tables.specs.Reading.{storage_in, of_written, table};
ghost use Rattle.meta_tables.specs.Seen.{cell_seen, table_seen};

use crate::cell::Cell;
use crate::cells::cell_in;
use crate::column::Column;
use crate::columns::columns;
use crate::error::TableError;
use crate::reading::written_table;
use crate::written::WrittenTable;
use json_decimal::JsonMembers;
use meta_schema::Schema;
use std::alloc::Global;
use std::marker::Model;
use subtree_binary::{Storage, Subtree, SubtreeError, read_storage};
use tile_types::Text;

/// A property table of a subtree (OGC 22-025r4, "Property tables"), over the schema and the subtree's
/// bytes, none of which is copied.
#[derive(Drop)]
pub struct Table<'a> {
    schema: &'a Schema,
    count: u32,
    columns: Vec<Column<'a>>,
}

impl<'a> Model for Table<'a> {
    ghost use Rattle.meta_tables.specs.Tables.{TableParts};

    ghost Value = { TableParts };

    ghost use Rattle.meta_tables.specs.Seen.{columns_seen};

    ghost view = { λ t. record {
      schema = t.schema.now;
      count = t.count;
      columns = columns_seen t.columns.items;
    } };

    ghost use Rattle.std.specs.Prelude.{◌≡◌, Ok, All};
    ghost use Rattle.meta_tables.specs.Checks.{checks};

    ghost invariant = { λ t. All (λ c. checks t.schema.now t.count c ≡ Ok tt)
        (columns_seen t.columns.items) };
}

impl<'a> Table<'a> {
    /// Reads the table `index`, from 0, of a subtree's `propertyTables`. Of several causes the first
    /// in the order of the class's properties is answered. It takes no memory for cells.
    #[tactic(auto, unfolding(crate::specs::Reading::table))]
    pub fn read(
        alloc: Global,
        schema: &'a Schema,
        subtree: &'a Subtree,
        index: u32,
    ) -> Result<Table<'a>, TableError>
        ensures { Gives (λ t. t) result (table schema.now subtree.now index) }
    {
        let Some(text) = subtree.text(alloc)? else {
            return Err(TableError::Shape);
        };
        let Some(top) = text.root().members() else {
            return Err(TableError::Shape);
        };
        let Some(own) = written_table(top, index) else {
            return Err(TableError::Shape);
        };
        let storage = storage_in(alloc, subtree, top)?;
        of_written(alloc, schema, &storage, own)
    }

    /// How many rows it has, at most 2^32 - 1.
    pub fn count(&self) -> u64
        ensures { result ≡ self.now.count }
    {
        u64::from(self.count)
    }

    /// How many columns it has.
    pub fn columns(&self) -> u64
        ensures { result ≡ length self.now.columns }
    {
        self.columns.len() as u64
    }

    /// The name of a column's property.
    pub fn column_name(&self, column: u64) -> &Text
        requires { column < length self.now.columns }
        ensures { option_map (λ c. c.name) (slice_get self.now.columns column) ≡ Some result.now }
    {
        self.columns[column as usize].name
    }

    /// The cell of a row and a column, both from 0. It takes no memory.
    #[inline]
    pub fn cell(&self, row: u64, column: u64) -> Cell<'_>
        requires row { row < self.now.count }
        requires column { column < length self.now.columns }
        ensures { spec.cell self.now row column ≡ Some (cell_seen result) }
    {
        cell_in(self.schema, self.columns[column as usize], row as usize)
    }
}

/// The buffers and buffer views of a subtree, of whose JSON chunk these are the members.
fn storage_in<'a>(
    alloc: Global,
    subtree: &'a Subtree,
    top: JsonMembers<'_>,
) -> Result<Storage<'a>, TableError>
    ensures { Gives storage_seen result (storage_in subtree.now.binary (members_left top.entry)) }
{
    match read_storage(alloc, subtree.binary(), top) {
        Ok(storage) => Ok(storage),
        Err(SubtreeError::OutOfMemory) => Err(TableError::OutOfMemory),
        Err(_) => Err(TableError::Shape),
    }
}

/// The table that is written so.
fn of_written<'a>(
    alloc: Global,
    schema: &'a Schema,
    storage: &Storage<'a>,
    own: WrittenTable<'_>,
) -> Result<Table<'a>, TableError>
    ensures { Gives (λ t. t) result
        (of_written schema.now (storage_seen storage.now) (table_seen own.entry)) }
{
    let name = own.class.to_text(alloc)?;
    let Some(class) = schema.class(name.as_str()) else {
        return Err(TableError::UnknownClass);
    };
    let columns = columns(
        alloc,
        schema,
        storage,
        own.count,
        own.properties,
        class.properties(),
    )?;
    Ok(Table {
        schema,
        count: own.count,
        columns,
    })
}
