//! Bits seen 64 at a time.

ghost use Rattle.std.specs.Prelude.{◌≡◌, ◌≤◌, ◌<◌, ◌+◌, ◌*◌, ◌/◌, ◌%◌, ℕ, length, slice_index};
ghost use Rattle.std.specs.Prelude.{◌-◌, ◌^◌, IfOk, count_ones};
ghost use Rattle.std.specs.Int.{bit_at};
ghost use Rattle.avail_bits.specs.Counts.{counts_of};

use std::alloc::{AllocError, Global};

/// How many bits a word has.
pub const WORD_BITS: u64 = 64;

/// How many bytes a word has.
const WORD_BYTES: usize = 8;

/// The 64 bits from number `64 * word` on, the first as the lowest; behind the bytes they are 0.
#[inline]
pub fn word_at(bytes: &[u8], word: usize) -> u64
    requires { word * 8 ≤ length bytes.now }
    ensures { (j : ℕ) → j < 64
        → bit_at result j ≡ bit_at (slice_index bytes.now (8 * word + j / 8)) (j % 8) }
{
    let rest = &bytes[word * WORD_BYTES..];
    match rest.first_chunk::<WORD_BYTES>() {
        Some(block) => u64::from_le_bytes(*block),
        None => last_word(rest),
    }
}

/// The bits of fewer than eight bytes.
fn last_word(bytes: &[u8]) -> u64
    requires { length bytes.now < 8 }
    ensures { (j : ℕ) → j < 64 → bit_at result j ≡ bit_at (slice_index bytes.now (j / 8)) (j % 8) }
{
    u64::from_le_bytes(padded(bytes))
}

/// Fewer than eight bytes, with zeros behind them.
fn padded(bytes: &[u8]) -> [u8; WORD_BYTES]
    requires { length bytes.now < 8 }
    ensures { (i : ℕ) → slice_index result i ≡ slice_index bytes.now i }
{
    let mut block = [0u8; WORD_BYTES];
    block[..bytes.len()].copy_from_slice(bytes);
    block
}

/// How many bits of a word are set below one of them.
#[inline]
pub fn ones_below(word: u64, end: u64) -> u64
    requires { end < 64 }
    ensures { result ≡ count_ones (word % 2 ^ end) }
{
    u64::from((word & ((1 << end) - 1)).count_ones())
}

/// How many bits are set before each word up to `words`.
pub fn count_words(alloc: Global, bytes: &[u8], words: usize) -> Result<Vec<u64>, AllocError>
    requires within { words * 8 ≤ length bytes.now }
    requires countable { words * 64 < 2 ^ 64 }
    ensures { IfOk result (λ v. v.items ≡ counts_of bytes.now words) }
{
    let mut counts = Vec::with_capacity(alloc, words + 1)?;
    let mut total: u64 = 0;
    counts.push(total)?;
    for word in 0..words {
        total += u64::from(word_at(bytes, word).count_ones());
        counts.push(total)?;
    }
    Ok(counts)
}
