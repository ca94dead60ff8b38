//! The buffer views that the JSON chunk writes (OGC 22-025r4, "Buffers and Buffer Views").

ghost use Rattle.std.specs.Prelude.{◌≡◌};
ghost use Rattle.json_decimal.specs.Handles.{json_of, items_left};
ghost use Rattle.subtree_binary.specs.Causes.{Gives, each, or_default};
ghost use Rattle.subtree_binary.specs.Chunks as chunks;
ghost use Rattle.subtree_binary.specs.Seen.{value_seen};
ghost use Rattle.subtree_binary.specs.declared.error.SubtreeField.TheVariants.{Views};

use crate::error::{SubtreeError, SubtreeField};
use crate::members::last;
use crate::naturals::{natural_at, natural_of};
use json_decimal::{JsonItems, JsonRef};
use std::alloc::Global;

/// Some bytes of a buffer.
#[derive(Clone, Copy)]
pub struct View {
    pub buffer: u64,
    pub byte_offset: u64,
    pub byte_length: u64,
}

/// Another form than buffer views have to have.
const SHAPE: SubtreeError = SubtreeError::Shape {
    field: SubtreeField::Views,
};

/// The value of `byteOffset`, which is 0 where it isn't there.
fn byte_offset(value: Option<JsonRef<'_>>) -> Result<u64, SubtreeError>
    ensures { result ≡ or_default 0 (chunks.natural_of Views) (value_seen value.entry) }
{
    match value {
        Some(value) => natural_of(value, SubtreeField::Views),
        None => Ok(0),
    }
}

fn read_view(value: JsonRef<'_>) -> Result<View, SubtreeError>
    ensures { result ≡ chunks.buffer_view (json_of value.entry) }
{
    let Some(own) = value.members() else {
        return Err(SHAPE);
    };
    Ok(View {
        buffer: natural_at(last(own, "buffer"), SubtreeField::Views)?,
        byte_offset: byte_offset(last(own, "byteOffset"))?,
        byte_length: natural_at(last(own, "byteLength"), SubtreeField::Views)?,
    })
}

fn each_view(alloc: Global, items: JsonItems<'_>) -> Result<Vec<View>, SubtreeError>
    ensures { Gives (λ views. views.items) result (each chunks.buffer_view (items_left items.entry)) }
{
    let mut views = Vec::new(alloc);
    let mut rest = items;
    while let Some(value) = rest.next() {
        views.push(read_view(value)?)?;
    }
    Ok(views)
}

/// The buffer views, of which there are none where the member isn't there.
pub fn views(alloc: Global, value: Option<JsonRef<'_>>) -> Result<Vec<View>, SubtreeError>
    ensures { Gives (λ views. views.items) result (chunks.views (value_seen value.entry)) }
{
    let Some(value) = value else {
        return Ok(Vec::new(alloc));
    };
    match value.items() {
        Some(items) => each_view(alloc, items),
        None => Err(SHAPE),
    }
}
