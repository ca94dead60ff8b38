//! The buffers that the JSON chunk writes (OGC 22-025r4, "Buffers and Buffer Views").

ghost use Rattle.std.specs.Prelude.{◌≡◌};
ghost use Rattle.json_decimal.specs.Handles.{json_of, items_left};
ghost use Rattle.subtree_binary.specs.Causes.{Gives, each};
ghost use Rattle.subtree_binary.specs.Chunks as chunks;
ghost use Rattle.subtree_binary.specs.Seen.{value_seen};

use crate::error::{SubtreeError, SubtreeField};
use crate::members::last;
use crate::naturals::natural_at;
use json_decimal::{JsonItems, JsonRef};
use std::alloc::Global;

/// How many bytes a buffer has, and whether it is another file.
#[derive(Clone, Copy)]
pub struct Buffer {
    pub byte_length: u64,
    pub is_external: bool,
}

/// Another form than buffers have to have.
const SHAPE: SubtreeError = SubtreeError::Shape {
    field: SubtreeField::Buffers,
};

fn read_buffer(value: JsonRef<'_>) -> Result<Buffer, SubtreeError>
    ensures { result ≡ chunks.buffer (json_of value.entry) }
{
    let Some(own) = value.members() else {
        return Err(SHAPE);
    };
    Ok(Buffer {
        byte_length: natural_at(last(own, "byteLength"), SubtreeField::Buffers)?,
        is_external: last(own, "uri").is_some(),
    })
}

fn each_buffer(alloc: Global, items: JsonItems<'_>) -> Result<Vec<Buffer>, SubtreeError>
    ensures { Gives (λ buffers. buffers.items) result (each chunks.buffer (items_left items.entry)) }
{
    let mut buffers = Vec::new(alloc);
    let mut rest = items;
    while let Some(value) = rest.next() {
        buffers.push(read_buffer(value)?)?;
    }
    Ok(buffers)
}

/// The buffers, of which there are none where the member isn't there.
pub fn buffers(alloc: Global, value: Option<JsonRef<'_>>) -> Result<Vec<Buffer>, SubtreeError>
    ensures { Gives (λ buffers. buffers.items) result (chunks.buffers (value_seen value.entry)) }
{
    let Some(value) = value else {
        return Ok(Vec::new(alloc));
    };
    match value.items() {
        Some(items) => each_buffer(alloc, items),
        None => Err(SHAPE),
    }
}
