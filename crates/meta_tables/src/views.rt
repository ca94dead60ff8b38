//! The views of a column.

use crate::offset_type::OffsetType;
use subtree_binary::View;

/// Where a column's values lie, and of texts the offsets.
#[derive(Clone, Copy)]
pub struct ColumnViews {
    pub values: View,
    pub offsets: Option<OffsetView>,
}

/// Where the offsets of texts lie, and how they are written.
#[derive(Clone, Copy)]
pub struct OffsetView {
    pub view: View,
    pub offset_type: OffsetType,
}
