//! Bits in bytes (OGC 22-025r4, "Availability Bitstreams").

ghost use Rattle.std.specs.Prelude.{◌≡◌, ◌≤◌, ◌<◌, ◌^◌, ◌++◌, length, replicate, IfOk, OnOk};
ghost use Rattle.subtree_write.specs.Rows as rows;
ghost use Rattle.subtree_write.specs.Rows.{packed, stream_bytes};

use std::alloc::AllocError;

/// The byte of at most eight bits, the lowest first.
fn byte_of(bits: &[bool]) -> u8
    requires { length bits.now ≤ 8 }
    ensures value { result ≡ rows.byte_of bits.now }
    ensures fits { result < 2 ^ length bits.now }
{
    match bits {
        [] => 0,
        [bit, rest @ ..] => u8::from(*bit) + 2 * byte_of(rest),
    }
}

/// How many bytes fill up so many to a multiple of 8.
#[tactic(auto, unfolding(crate::specs::Rows::padding))]
fn padding(count: usize) -> usize
    requires { count < 2 ^ 63 }
    ensures { result ≡ rows.padding count }
{
    count.next_multiple_of(8) - count
}

/// Adds as many bytes of one value as fill up so many to a multiple of 8.
pub fn push_padding(bytes: &mut Vec<u8>, count: usize, filler: u8) -> Result<(), AllocError>
    requires { count < 2 ^ 63 }
    ensures { OnOk result (bytes.new.items
        ≡ bytes.old.items ++ replicate (rows.padding count) filler) }
{
    for _ in 0..padding(count) {
        bytes.push(filler)?;
    }
    Ok(())
}

/// Adds the bytes of the bits.
fn push_packed(bytes: &mut Vec<u8>, bits: &[bool]) -> Result<(), AllocError>
    ensures { OnOk result (bytes.new.items ≡ bytes.old.items ++ packed bits.now) }
{
    for i in 0..bits.len().div_ceil(8) {
        let start = 8 * i;
        let end = bits.len().min(start + 8);
        bytes.push(byte_of(&bits[start..end]))?;
    }
    Ok(())
}

/// Adds the bytes of a stream, and answers how many of them hold its bits.
pub fn push_stream(bytes: &mut Vec<u8>, bits: &[bool]) -> Result<usize, AllocError>
    ensures bytes { OnOk result (bytes.new.items ≡ bytes.old.items ++ stream_bytes bits.now) }
    ensures length { IfOk result (λ n. n ≡ length (packed bits.now)) }
{
    push_packed(bytes, bits)?;
    let count = bits.len().div_ceil(8);
    push_padding(bytes, count, 0)?;
    Ok(count)
}
