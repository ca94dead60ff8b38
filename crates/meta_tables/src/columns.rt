//! The columns of a property table (OGC 22-025r4, "Property tables").

ghost use Rattle.subtree_binary.specs.StorageSeen.{storage_seen};
ghost use Rattle.meta_tables.specs.Causes.{Gives, each};
ghost use Rattle.meta_tables.specs.Columns.{column, owned};
ghost use Rattle.meta_tables.specs.Seen.{columns_seen, members_seen};

use crate::column::Column;
use crate::error::TableError;
use crate::named_values::{named_values, value_named};
use crate::stored::read_column;
use json_decimal::JsonMembers;
use meta_schema::{Property, Schema};
use std::alloc::Global;
use subtree_binary::Storage;

/// The columns of those properties that the table has, in the order of the class.
pub fn columns<'a>(
    alloc: Global,
    schema: &Schema,
    storage: &Storage<'a>,
    count: u32,
    members: Option<JsonMembers<'_>>,
    properties: &'a [Property],
) -> Result<Vec<Column<'a>>, TableError>
    ensures { Gives (λ columns. columns_seen columns.items) result
        (each (column schema.now (storage_seen storage.now) count)
        (owned (members_seen members.entry) properties.now)) }
{
    let values = named_values(alloc, members)?;
    let mut columns = Vec::new(alloc);
    let mut rest = properties;
    while let Some((property, behind)) = rest.split_first() {
        if let Some(value) = value_named(&values, property.name()) {
            columns.push(read_column(schema, storage, count, property, value)?)?;
        }
        rest = behind;
    }
    Ok(columns)
}
