//! Reading what the JSON chunk writes of a property table (OGC 22-025r4, "Property tables").

ghost use Rattle.std.specs.Prelude.{◌≡◌, option_map, slice_get};
ghost use Rattle.json_decimal.specs.Handles.{json_of, items_left, members_left};
ghost use Rattle.subtree_binary.specs.Seen.{value_seen};
ghost use Rattle.meta_tables.specs.Seen.{table_seen};
ghost use Rattle.meta_tables.specs.Written as spec;

use crate::limits::NUMBER_LIMIT;
use crate::offset_type::OffsetType;
use crate::offsets::offset_type_named;
use crate::views::{ColumnViews, OffsetView};
use crate::written::WrittenTable;
use json_decimal::{JsonItems, JsonMembers, JsonRef};
use meta_schema::PropertyType;
use subtree_binary::{View, last, natural};

/// The value of a member, if it is a whole number from 0 to 2^32 - 1.
pub fn number_of(value: Option<JsonRef<'_>>) -> Option<u32>
    ensures { result ≡ spec.number_of (value_seen value.entry) }
{
    let number = natural(value?)?;
    if number <= NUMBER_LIMIT {
        Some(number as u32)
    } else {
        None
    }
}

/// The item of this place, from 0.
fn item_at(items: JsonItems<'_>, index: u32) -> Option<JsonRef<'_>>
    ensures { value_seen result ≡ slice_get (items_left items.entry) index }
{
    let mut rest = items;
    let mut left = index;
    while left > 0 {
        rest.next()?;
        left -= 1;
    }
    rest.next()
}

fn table_in(own: JsonMembers<'_>) -> Option<WrittenTable<'_>>
    ensures { option_map table_seen result ≡ spec.table_in (members_left own.entry) }
{
    let class = last(own, "class")?.text()?;
    let count = number_of(last(own, "count"))?;
    let properties = match last(own, "properties") {
        Some(value) => Some(value.members()?),
        None => None,
    };
    Some(WrittenTable {
        class,
        count,
        properties,
    })
}

/// The table of this number, from 0, in `propertyTables`, if it is one.
pub fn written_table(top: JsonMembers<'_>, index: u32) -> Option<WrittenTable<'_>>
    ensures { option_map table_seen result ≡ spec.written_table index (members_left top.entry) }
{
    let tables = last(top, "propertyTables")?.items()?;
    table_in(item_at(tables, index)?.members()?)
}

/// The view whose number this is, if it is there.
fn view_of(views: &[View], value: Option<JsonRef<'_>>) -> Option<View>
    ensures { result ≡ spec.view_of views.now (value_seen value.entry) }
{
    let number = natural(value?)?;
    views.get(number as usize).copied()
}

/// The type of offsets, which is UINT32 where it isn't there.
fn offset_type_in(value: Option<JsonRef<'_>>) -> Option<OffsetType>
    ensures { result ≡ spec.offset_type_in (value_seen value.entry) }
{
    match value {
        Some(value) => offset_type_named(value.text()?),
        None => Some(OffsetType::Uint32),
    }
}

fn text_offsets(views: &[View], own: JsonMembers<'_>) -> Option<Option<OffsetView>>
    ensures { result ≡ spec.text_offsets views.now (members_left own.entry) }
{
    let view = view_of(views, last(own, "stringOffsets"))?;
    let offset_type = offset_type_in(last(own, "stringOffsetType"))?;
    Some(Some(OffsetView { view, offset_type }))
}

fn offsets_in(
    views: &[View],
    own: JsonMembers<'_>,
    kind: PropertyType,
) -> Option<Option<OffsetView>>
    ensures { result ≡ spec.offsets_in views.now (members_left own.entry) kind }
{
    match kind {
        PropertyType::Words => text_offsets(views, own),
        PropertyType::Whole { .. } => Some(None),
        PropertyType::Boolean => Some(None),
        PropertyType::Enum { .. } => Some(None),
        PropertyType::Skipped => Some(None),
    }
}

/// The views of a column of this kind.
pub fn column_views(views: &[View], kind: PropertyType, value: JsonRef<'_>) -> Option<ColumnViews>
    ensures { result ≡ spec.column_views views.now kind (json_of value.entry) }
{
    let own = value.members()?;
    let values = view_of(views, last(own, "values"))?;
    let offsets = offsets_in(views, own, kind)?;
    Some(ColumnViews { values, offsets })
}
