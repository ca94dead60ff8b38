//! The bits of contents (OGC 22-025r4, "Content Availability").

ghost use Rattle.std.specs.Prelude.{◌≡◌, Ok, take};
ghost use Rattle.json_decimal.specs.Handles.{items_left};
ghost use Rattle.subtree_binary.specs.Availability as spec;
ghost use Rattle.subtree_binary.specs.Causes.{Gives, each};
ghost use Rattle.subtree_binary.specs.Seen.{value_seen};
ghost use Rattle.subtree_binary.specs.StorageSeen.{storage_seen};
ghost use Rattle.subtree_binary.specs.declared.error.SubtreeField.TheVariants as fields;

use crate::bits::bits;
use crate::error::{SubtreeError, SubtreeField};
use crate::storage::Storage;
use avail_bits::Bits;
use json_decimal::{JsonItems, JsonRef};
use std::alloc::Global;

/// So many bits of each of the first entries, of no more than there are contents.
fn given_contents(
    alloc: Global,
    storage: &Storage<'_>,
    count: u64,
    contents: u32,
    entries: JsonItems<'_>,
) -> Result<Vec<Bits>, SubtreeError>
    ensures { Gives (λ given. given.items) result
        (each (spec.bits (storage_seen storage.now) fields.ContentAvailability count)
        (take contents (items_left entries.entry))) }
{
    let mut given = Vec::new(alloc);
    let mut rest = entries;
    let mut left = contents;
    while left > 0 {
        let Some(value) = rest.next() else {
            break;
        };
        given.push(bits(
            alloc,
            storage,
            SubtreeField::ContentAvailability,
            count,
            value,
        )?)?;
        left -= 1;
    }
    Ok(given)
}

/// Behind those that have an entry come those that have none, and are available nowhere.
#[tactic(auto, using(crate::proofs::Absent::one_absent))]
fn with_absent(given: Vec<Bits>, count: u64, contents: u32) -> Result<Vec<Bits>, SubtreeError>
    ensures { Gives (λ all. all.items) result (Ok (spec.with_absent count contents given.items)) }
{
    let mut all = given;
    while all.len() < contents as usize {
        all.push(Bits::constant(false, count))?;
    }
    Ok(all)
}

/// So many bits for each content.
pub fn content_bits(
    alloc: Global,
    storage: &Storage<'_>,
    count: u64,
    contents: u32,
    value: Option<JsonRef<'_>>,
) -> Result<Vec<Bits>, SubtreeError>
    ensures { Gives (λ all. all.items) result
        (spec.contents_at (storage_seen storage.now) count contents (value_seen value.entry)) }
{
    let Some(value) = value else {
        return with_absent(Vec::new(alloc), count, contents);
    };
    let Some(entries) = value.items() else {
        return Err(SubtreeError::Shape {
            field: SubtreeField::ContentAvailability,
        });
    };
    let given = given_contents(alloc, storage, count, contents, entries)?;
    with_absent(given, count, contents)
}
