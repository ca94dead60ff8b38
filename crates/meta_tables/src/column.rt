//! A column of a property table.

use crate::offset_type::OffsetType;
use meta_schema::PropertyType;
use tile_types::Text;

/// A column (OGC 22-025r4, "Property tables"): its name and its bytes, which it borrows. Where it has
/// no texts there are no offsets.
#[derive(Clone, Copy)]
pub struct Column<'a> {
    pub name: &'a Text,
    pub kind: PropertyType,
    pub values: &'a [u8],
    pub offset_type: OffsetType,
    pub offsets: &'a [u8],
}
