//! Reading a binary subtree.

ghost use Rattle.std.specs.Prelude.{◌≡◌, ◌≤◌, ◌<◌, IfOk};
ghost use Rattle.json_decimal.specs.Handles.{members_left};
ghost use Rattle.json_decimal.specs.JsonValue.{JsonValue};
ghost use Rattle.json_decimal.specs.Reading.{value_in};
ghost use Rattle.subtree_binary.specs.BitsSeen.{parts_by};
ghost use Rattle.subtree_binary.specs.Causes.{Gives, or_cause};
ghost use Rattle.subtree_binary.specs.Counts.{level_limit};
ghost use Rattle.subtree_binary.specs.Reading.{available, in_chunks, subtree};
ghost use Rattle.subtree_binary.specs.Seen.{json_in};
ghost use Rattle.subtree_binary.specs.StorageSeen.{storage_seen};
ghost use Rattle.subtree_binary.specs.Subtrees.{HasCounts};
ghost use Rattle.subtree_binary.specs.declared.error.SubtreeError.TheVariants.{NotJson};

use crate::bits::bits_at;
use crate::contents::content_bits;
use crate::counts::{child_count, tile_count};
use crate::error::{SubtreeError, SubtreeField};
use crate::header::{Chunks, read_chunks};
use crate::members::last;
use crate::storage::{Storage, read_storage};
use crate::subtree::Subtree;
use avail_bits::Bits;
use bytes::Bytes;
use json_decimal::{JsonError, JsonMembers, JsonText};
use std::alloc::Global;

/// The bits of a subtree.
#[derive(Drop)]
pub struct SubtreeBits {
    tiles: Bits,
    contents: Vec<Bits>,
    children: Bits,
}

/// The text of a JSON chunk. One that is longer than a JSON text may be counts as want of memory.
fn read_text(alloc: Global, chunk: &[u8]) -> Result<JsonText<'_>, SubtreeError>
    ensures { Gives (λ text. text) result (or_cause NotJson (value_in chunk.now)) }
{
    match JsonText::read(alloc, chunk) {
        Ok(text) => Ok(text),
        Err(JsonError::NotJson) => Err(SubtreeError::NotJson),
        Err(JsonError::TooLong) => Err(SubtreeError::OutOfMemory),
        Err(JsonError::OutOfMemory) => Err(SubtreeError::OutOfMemory),
    }
}

/// The bits that the members of the top object say.
fn all_bits(
    alloc: Global,
    storage: &Storage<'_>,
    members: JsonMembers<'_>,
    octree: bool,
    levels: u8,
    contents: u32,
) -> Result<SubtreeBits, SubtreeError>
    requires { levels ≤ level_limit octree }
    ensures { (json : JsonValue) → Gives (parts_by json storage.now.binary.now) result
        (available octree levels contents json (members_left members.entry)
        (storage_seen storage.now)) }
{
    let count = tile_count(octree, levels);
    let field = SubtreeField::TileAvailability;
    let tiles = bits_at(
        alloc,
        storage,
        field,
        count,
        last(members, "tileAvailability"),
    )?;
    let value = last(members, "contentAvailability");
    let contents = content_bits(alloc, storage, count, contents, value)?;
    let field = SubtreeField::ChildAvailability;
    let count = child_count(octree, levels);
    let value = last(members, "childSubtreeAvailability");
    let children = bits_at(alloc, storage, field, count, value)?;
    Ok(SubtreeBits {
        tiles,
        contents,
        children,
    })
}

/// The bits that the chunks say.
fn bits_in(
    alloc: Global,
    chunks: &Chunks,
    octree: bool,
    levels: u8,
    contents: u32,
) -> Result<SubtreeBits, SubtreeError>
    requires { levels ≤ level_limit octree }
    ensures { Gives (parts_by (json_in chunks.now.json) chunks.now.binary) result
        (in_chunks octree levels contents chunks.now) }
{
    let text = read_text(alloc, chunks.json.as_slice())?;
    let Some(members) = text.root().members() else {
        return Err(SubtreeError::Shape {
            field: SubtreeField::Top,
        });
    };
    let storage = read_storage(alloc, &chunks.binary, members)?;
    all_bits(alloc, &storage, members, octree, levels, contents)
}

/// Reads a binary subtree of so many levels, for so many contents of a tile (OGC 22-025r4,
/// "Subtrees"). It shares the bytes. Of several causes the one that is met first is answered.
///
/// A JSON chunk of more than 2^32 - 1 bytes counts as want of memory.
#[tactic(auto, unfolding(crate::specs::Reading::subtree))]
pub fn read(
    alloc: Global,
    bytes: &Bytes,
    octree: bool,
    levels: u8,
    contents: u32,
) -> Result<Subtree, SubtreeError>
    requires some { 0 < levels }
    requires few { levels ≤ level_limit octree }
    ensures value { Gives (λ s. s) result (subtree octree levels contents bytes.now) }
    ensures counts { IfOk result (λ s. HasCounts octree levels contents s) }
{
    let chunks = read_chunks(bytes)?;
    let bits = bits_in(alloc, &chunks, octree, levels, contents)?;
    Ok(Subtree::new(
        bits.tiles,
        bits.contents,
        bits.children,
        chunks.json,
        chunks.binary,
    ))
}
