//! The bytes of a column, in the binary chunk (OGC 22-025r4, "Binary table format").

ghost use Rattle.std.specs.Prelude.{◌≡◌, option_map};
ghost use Rattle.json_decimal.specs.Handles.{json_of};
ghost use Rattle.subtree_binary.specs.StorageSeen.{storage_seen};
ghost use Rattle.meta_tables.specs.Causes.{seen_by};
ghost use Rattle.meta_tables.specs.Columns as spec;
ghost use Rattle.meta_tables.specs.Views as chunk;
ghost use Rattle.meta_tables.specs.Seen.{column_seen};
ghost use Rattle.meta_tables.specs.Tables.{plain_column, skipped_column};

use crate::checks::check;
use crate::column::Column;
use crate::error::TableError;
use crate::offset_type::OffsetType;
use crate::reading::column_views;
use crate::views::{ColumnViews, OffsetView};
use json_decimal::JsonRef;
use meta_schema::{Property, PropertyType, Schema};
use subtree_binary::{Buffer, Storage, View, check_range, internal_length};
use tile_types::Text;

/// The view is one of the binary chunk.
fn is_internal(buffers: &[Buffer], view: View) -> bool
    ensures { result ≡ chunk.is_internal buffers.now view }
{
    internal_length(buffers, view).is_ok()
}

/// Each view of a column is one of the binary chunk.
fn are_internal(buffers: &[Buffer], views: ColumnViews) -> bool
    ensures { result ≡ chunk.are_internal buffers.now views }
{
    if !is_internal(buffers, views.values) {
        return false;
    }
    match views.offsets {
        Some(offsets) => is_internal(buffers, offsets.view),
        None => true,
    }
}

/// The bytes of a view of the binary chunk, if it passes neither its buffer nor the chunk.
fn bytes_in<'a>(storage: &Storage<'a>, view: View) -> Option<&'a [u8]>
    ensures { option_map (λ bytes. bytes.now) result ≡ chunk.bytes_in (storage_seen storage.now) view }
{
    let buffer = internal_length(storage.buffers.as_slice(), view).ok()?;
    let bytes = storage.binary.as_slice();
    check_range(view, buffer, bytes.len() as u64).ok()?;
    let start = view.byte_offset as usize;
    Some(&bytes[start..start + view.byte_length as usize])
}

fn bytes_at<'a>(storage: &Storage<'a>, view: View) -> Result<&'a [u8], TableError>
    ensures { seen_by (λ bytes. bytes.now) result ≡ spec.bytes_at (storage_seen storage.now) view }
{
    match bytes_in(storage, view) {
        Some(bytes) => Ok(bytes),
        None => Err(TableError::ViewRange),
    }
}

fn plain_column<'a>(name: &'a Text, kind: PropertyType, values: &'a [u8]) -> Column<'a>
    ensures { column_seen result ≡ plain_column name.now kind values.now }
{
    Column {
        name,
        kind,
        values,
        offset_type: OffsetType::Uint32,
        offsets: &[],
    }
}

fn skipped_column(name: &Text) -> Column<'_>
    ensures { column_seen result ≡ skipped_column name.now }
{
    plain_column(name, PropertyType::Skipped, &[])
}

fn with_offsets<'a>(
    storage: &Storage<'a>,
    offsets: Option<OffsetView>,
    column: Column<'a>,
) -> Result<Column<'a>, TableError>
    ensures { seen_by column_seen result
        ≡ spec.with_offsets (storage_seen storage.now) offsets (column_seen column.entry) }
{
    match offsets {
        Some(offsets) => Ok(Column {
            name: column.name,
            kind: column.kind,
            values: column.values,
            offset_type: offsets.offset_type,
            offsets: bytes_at(storage, offsets.view)?,
        }),
        None => Ok(column),
    }
}

/// The column of these views.
fn of_views<'a>(
    storage: &Storage<'a>,
    name: &'a Text,
    kind: PropertyType,
    views: ColumnViews,
) -> Result<Column<'a>, TableError>
    ensures { seen_by column_seen result
        ≡ spec.of_views (storage_seen storage.now) name.now kind views }
{
    let values = bytes_at(storage, views.values)?;
    with_offsets(storage, views.offsets, plain_column(name, kind, values))
}

/// The column of these views, which is skipped where one of them is outside the binary chunk.
fn stored<'a>(
    schema: &Schema,
    storage: &Storage<'a>,
    count: u32,
    name: &'a Text,
    kind: PropertyType,
    views: ColumnViews,
) -> Result<Column<'a>, TableError>
    ensures { seen_by column_seen result
        ≡ spec.stored schema.now (storage_seen storage.now) count name.now kind views }
{
    if !are_internal(storage.buffers.as_slice(), views) {
        return Ok(skipped_column(name));
    }
    let column = of_views(storage, name, kind, views)?;
    check(schema, count, column)?;
    Ok(column)
}

/// The column of a property, and of what the table says of it.
pub fn read_column<'a>(
    schema: &Schema,
    storage: &Storage<'a>,
    count: u32,
    property: &'a Property,
    value: JsonRef<'_>,
) -> Result<Column<'a>, TableError>
    ensures { seen_by column_seen result
        ≡ spec.column schema.now (storage_seen storage.now) count (property.now, json_of value.entry) }
{
    let kind = property.kind();
    let name = property.name();
    if let PropertyType::Skipped = kind {
        return Ok(skipped_column(name));
    }
    match column_views(storage.views.as_slice(), kind, value) {
        Some(views) => stored(schema, storage, count, name, kind, views),
        None => Err(TableError::Shape),
    }
}
