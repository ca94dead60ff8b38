//! What bitstreams are read from.

ghost use Rattle.subtree_binary.specs.Causes.{Gives};
ghost use Rattle.subtree_binary.specs.Reading as reading;
ghost use Rattle.subtree_binary.specs.StorageSeen.{storage_seen};
ghost use Rattle.json_decimal.specs.Handles.{members_left};

use crate::buffers::{Buffer, buffers};
use crate::error::SubtreeError;
use crate::members::last;
use crate::views::{View, views};
use bytes::Bytes;
use json_decimal::JsonMembers;
use std::alloc::Global;

/// The buffers and buffer views that are written, and the binary chunk.
#[derive(Drop)]
pub struct Storage<'a> {
    pub buffers: Vec<Buffer>,
    pub views: Vec<View>,
    pub binary: &'a Bytes,
}

/// That of the top object's members and the binary chunk.
pub fn read_storage<'a>(
    alloc: Global,
    binary: &'a Bytes,
    members: JsonMembers<'_>,
) -> Result<Storage<'a>, SubtreeError>
    ensures { Gives storage_seen result (reading.storage binary.now (members_left members.entry)) }
{
    Ok(Storage {
        buffers: buffers(alloc, last(members, "buffers"))?,
        views: views(alloc, last(members, "bufferViews"))?,
        binary,
    })
}
