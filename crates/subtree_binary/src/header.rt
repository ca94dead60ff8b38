//! The header of a binary subtree and the two chunks behind it (OGC 22-025r4, "Subtrees").

ghost use Rattle.std.specs.Prelude.{◌≡◌, ◌+◌, ◌≤◌, IfOk, length};
ghost use Rattle.subtree_binary.specs.Causes.{Gives};
ghost use Rattle.subtree_binary.specs.Header as spec;

use crate::error::SubtreeError;
use byteorder::{ByteOrder, LittleEndian};
use bytes::Bytes;

/// How many bytes the header has.
const HEADER_LENGTH: usize = 24;

/// How many bytes the chunks have.
#[derive(Clone, Copy)]
pub struct ChunkLengths {
    pub json: usize,
    pub binary: usize,
}

/// The chunks, which share the bytes.
#[derive(Drop)]
pub struct Chunks {
    pub json: Bytes,
    pub binary: Bytes,
}

fn check_magic(bytes: &[u8]) -> Result<(), SubtreeError>
    ensures { result ≡ spec.magic bytes.now }
{
    if bytes.starts_with(b"subt") {
        return Ok(());
    }
    Err(SubtreeError::Magic)
}

fn check_version(bytes: &[u8]) -> Result<(), SubtreeError>
    ensures { result ≡ spec.version bytes.now }
{
    if 8 <= bytes.len() && LittleEndian::read_u32(&bytes[4..]) == 1 {
        return Ok(());
    }
    Err(SubtreeError::Version)
}

/// The lengths of the chunks, whose bytes are all there.
fn lengths(bytes: &[u8]) -> Result<ChunkLengths, SubtreeError>
    ensures { result ≡ spec.lengths bytes.now }
{
    if bytes.len() < HEADER_LENGTH {
        return Err(SubtreeError::Lengths);
    }
    let json = LittleEndian::read_u64(&bytes[8..]);
    let binary = LittleEndian::read_u64(&bytes[16..]);
    let behind = (bytes.len() - HEADER_LENGTH) as u64;
    if json <= behind && binary <= behind - json {
        return Ok(ChunkLengths {
            json: json as usize,
            binary: binary as usize,
        });
    }
    Err(SubtreeError::Lengths)
}

fn header(bytes: &[u8]) -> Result<ChunkLengths, SubtreeError>
    ensures value { result ≡ spec.header bytes.now }
    ensures within { IfOk result (λ l. 24 + (l.json + l.binary) ≤ length bytes.now) }
{
    check_magic(bytes)?;
    check_version(bytes)?;
    lengths(bytes)
}

/// The chunks behind a header whose bytes are all there.
pub fn read_chunks(bytes: &Bytes) -> Result<Chunks, SubtreeError>
    ensures { Gives (λ c. c) result (spec.chunks bytes.now) }
{
    let lengths = header(bytes.as_slice())?;
    let end = HEADER_LENGTH + lengths.json;
    Ok(Chunks {
        json: bytes.slice(HEADER_LENGTH..end)?,
        binary: bytes.slice(end..end + lengths.binary)?,
    })
}
