//! The availability of tiles, contents and child subtrees, as it is written.

ghost use Rattle.std.specs.Prelude.{◌≡◌, ◌++◌, [], length, OnOk};
ghost use Rattle.subtree_write.specs.StreamsSeen.{AddsRows};
ghost use Rattle.subtree_write.specs.Texts.{available_text, availability_texts, contents_text, further, rows};

use crate::spec::{BoolList, SubtreeSpec};
use crate::streams::Streams;
use crate::texts::push;
use std::alloc::AllocError;

/// Writes rows of bits, each behind a comma.
fn push_further(
    streams: &mut Streams,
    json: &mut Vec<u8>,
    rows: &[BoolList],
) -> Result<(), AllocError>
    ensures json { OnOk result (json.new.items ≡ json.old.items
        ++ further (availability_texts (length streams.old.views.items) rows.now)) }
    ensures rows { OnOk result (AddsRows streams.old streams.new rows.now) }
{
    let mut rest = rows;
    while let Some((row, more)) = rest.split_first() {
        push(json, ",")?;
        streams.push_row(json, row.as_slice())?;
        rest = more;
    }
    Ok(())
}

/// Writes the rows of contents, where there is one.
fn push_contents(
    streams: &mut Streams,
    json: &mut Vec<u8>,
    rows: &[BoolList],
) -> Result<(), AllocError>
    ensures json { OnOk result (json.new.items ≡ json.old.items
        ++ contents_text (length streams.old.views.items) rows.now) }
    ensures rows { OnOk result (AddsRows streams.old streams.new rows.now) }
{
    let Some((first, more)) = rows.split_first() else {
        return Ok(());
    };
    push(json, r#","contentAvailability":["#)?;
    streams.push_row(json, first.as_slice())?;
    push_further(streams, json, more)?;
    push(json, "]")?;
    Ok(())
}

/// Writes all rows.
pub fn push_available(
    streams: &mut Streams,
    json: &mut Vec<u8>,
    spec: &SubtreeSpec,
) -> Result<(), AllocError>
    requires { streams.old.views.items ≡ [] }
    ensures json { OnOk result (json.new.items ≡ json.old.items ++ available_text spec.now) }
    ensures rows { OnOk result (AddsRows streams.old streams.new (rows spec.now)) }
{
    push(json, r#""tileAvailability":"#)?;
    streams.push_row(json, spec.tiles.as_slice())?;
    push_contents(streams, json, spec.contents.as_slice())?;
    push(json, r#","childSubtreeAvailability":"#)?;
    streams.push_row(json, spec.children.as_slice())?;
    Ok(())
}
