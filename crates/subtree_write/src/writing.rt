//! Writing a binary subtree.

ghost use Rattle.std.specs.Prelude.{◌≡◌, [], ◌++◌, length, IfOk, OnOk};
ghost use Rattle.json_decimal.specs.Ascii.{space};
ghost use Rattle.subtree_write.specs.ReadingBack.{HasAllBits, ReadsAs};
ghost use Rattle.subtree_write.specs.Rows.{binary, padded};
ghost use Rattle.subtree_write.specs.Texts.{json_text, storage_text, streams_of};
ghost use Rattle.subtree_write.specs.Writing as spec;
ghost use Rattle.subtree_write.specs.Writing.{written};

use crate::available::push_available;
use crate::packing::push_padding;
use crate::spec::SubtreeSpec;
use crate::streams::Streams;
use crate::texts::{push, push_number, push_views};
use std::alloc::{AllocError, Global};

/// Writes the buffers and buffer views, where there is a view.
fn push_storage(json: &mut Vec<u8>, streams: &Streams) -> Result<(), AllocError>
    ensures { OnOk result (json.new.items ≡ json.old.items
        ++ storage_text streams.now.views.items (length streams.now.binary.items)) }
{
    if streams.views.is_empty() {
        return Ok(());
    }
    push(json, r#""buffers":[{"byteLength":"#)?;
    push_number(json, streams.binary.len())?;
    push(json, r#"}],"bufferViews":"#)?;
    push_views(json, streams.views.as_slice())?;
    push(json, ",")?;
    Ok(())
}

/// The JSON chunk. The streams are added to those that there are, of which there are none.
fn json_chunk(
    alloc: Global,
    spec: &SubtreeSpec,
    streams: &mut Streams,
) -> Result<Vec<u8>, AllocError>
    requires views { streams.old.views.items ≡ [] }
    requires binary { streams.old.binary.items ≡ [] }
    ensures json { IfOk result (λ json. json.items ≡ padded space (json_text spec.now)) }
    ensures binary { OnOk result
        (streams.new.binary.items ≡ binary (streams_of spec.now)) }
{
    let mut available = Vec::new(alloc);
    push_available(streams, &mut available, spec)?;
    let mut json = Vec::new(alloc);
    push(&mut json, "{")?;
    push_storage(&mut json, streams)?;
    json.extend_from_slice(available.as_slice())?;
    push(&mut json, "}")?;
    let count = json.len();
    push_padding(&mut json, count, b' ')?;
    Ok(json)
}

/// The header before chunks of so many bytes.
fn header(alloc: Global, json: usize, binary: usize) -> Result<Vec<u8>, AllocError>
    ensures { IfOk result (λ header. header.items ≡ spec.header json binary) }
{
    let mut header = Vec::from_slice(alloc, b"subt")?;
    header.extend_from_slice(&1u32.to_le_bytes())?;
    header.extend_from_slice(&(json as u64).to_le_bytes())?;
    header.extend_from_slice(&(binary as u64).to_le_bytes())?;
    Ok(header)
}

/// The bytes of a binary subtree (OGC 22-025r4, "Subtrees"). Where there is a bit for each tile and
/// each child subtree, they are read as the same bits.
pub fn write(alloc: Global, spec: &SubtreeSpec) -> Result<Vec<u8>, AllocError>
    ensures bytes { IfOk result (λ file. file.items ≡ written spec.now) }
    ensures reads_back { IfOk result (λ file.
        HasAllBits spec.now → ReadsAs spec.now file.items) }
{
    let mut streams = Streams::new(alloc);
    let json = json_chunk(alloc, spec, &mut streams)?;
    let mut file = header(alloc, json.len(), streams.binary.len())?;
    file.extend_from_slice(json.as_slice())?;
    file.extend_from_slice(streams.binary.as_slice())?;
    Ok(file)
}
