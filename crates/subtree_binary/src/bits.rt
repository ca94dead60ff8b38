//! The bits that an availability stands for (OGC 22-025r4, "Availability Bitstreams").

ghost use Rattle.std.specs.Prelude.{◌≡◌};
ghost use Rattle.json_decimal.specs.Handles.{json_of};
ghost use Rattle.subtree_binary.specs.Availability as spec;
ghost use Rattle.subtree_binary.specs.Causes.{Gives};
ghost use Rattle.subtree_binary.specs.Seen.{value_seen};
ghost use Rattle.subtree_binary.specs.StorageSeen.{storage_seen};

use crate::availability::{Availability, read_availability};
use crate::buffers::Buffer;
use crate::error::{SubtreeError, SubtreeField};
use crate::storage::Storage;
use crate::views::View;
use avail_bits::{Bits, BitsError};
use json_decimal::JsonRef;
use std::alloc::Global;

/// The length of buffer 0, which the view has to be one of, and which must not be another file.
pub fn internal_length(buffers: &[Buffer], view: View) -> Result<u64, SubtreeError>
    ensures { result ≡ spec.internal_length buffers.now view }
{
    if view.buffer != 0 {
        return Err(SubtreeError::ExternalBuffer);
    }
    match buffers.first() {
        Some(buffer) if !buffer.is_external => Ok(buffer.byte_length),
        _ => Err(SubtreeError::ExternalBuffer),
    }
}

/// The view passes neither the buffer nor the binary chunk, which have so many bytes.
pub fn check_range(view: View, buffer: u64, binary: u64) -> Result<(), SubtreeError>
    ensures { result ≡ spec.in_range view buffer binary }
{
    let bytes = buffer.min(binary);
    if view.byte_length <= bytes && view.byte_offset <= bytes - view.byte_length {
        return Ok(());
    }
    Err(SubtreeError::ViewRange)
}

/// The view has enough bytes for so many bits.
fn check_length(view: View, count: u64) -> Result<(), SubtreeError>
    ensures { result ≡ spec.long_enough view count }
{
    if count.div_ceil(8) <= view.byte_length {
        return Ok(());
    }
    Err(SubtreeError::BitsShort)
}

/// So many bits of a view.
fn view_bits(
    alloc: Global,
    storage: &Storage<'_>,
    count: u64,
    view: View,
) -> Result<Bits, SubtreeError>
    ensures { Gives (λ bits. bits) result (spec.view_bits (storage_seen storage.now) count view) }
{
    let buffer = internal_length(storage.buffers.as_slice(), view)?;
    check_range(view, buffer, storage.binary.len() as u64)?;
    check_length(view, count)?;
    let start = view.byte_offset as usize;
    let bytes = storage
        .binary
        .slice(start..start + view.byte_length as usize)?;
    match Bits::from_bytes(alloc, bytes, count) {
        Ok(bits) => Ok(bits),
        Err(BitsError::Short) => Err(SubtreeError::BitsShort),
        Err(BitsError::OutOfMemory) => Err(SubtreeError::OutOfMemory),
    }
}

/// So many bits, as this value says.
pub fn bits(
    alloc: Global,
    storage: &Storage<'_>,
    field: SubtreeField,
    count: u64,
    value: JsonRef<'_>,
) -> Result<Bits, SubtreeError>
    ensures { Gives (λ bits. bits) result
        (spec.bits (storage_seen storage.now) field count (json_of value.entry)) }
{
    match read_availability(value, field, storage.views.as_slice())? {
        Availability::Constant(value) => Ok(Bits::constant(value, count)),
        Availability::Bitstream(view) => view_bits(alloc, storage, count, view),
    }
}

/// The same of a member that has to be there.
pub fn bits_at(
    alloc: Global,
    storage: &Storage<'_>,
    field: SubtreeField,
    count: u64,
    value: Option<JsonRef<'_>>,
) -> Result<Bits, SubtreeError>
    ensures { Gives (λ bits. bits) result
        (spec.bits_at (storage_seen storage.now) field count (value_seen value.entry)) }
{
    match value {
        Some(value) => bits(alloc, storage, field, count, value),
        None => Err(SubtreeError::Shape { field }),
    }
}
