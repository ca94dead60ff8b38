//! Truth values in a row, with counts of those that are true.

ghost use Rattle.std.specs.Prelude.{◌≡◌, ◌<◌, ◌≤◌, ◌+◌, ◌↔◌, length, take, replicate};
ghost use Rattle.std.specs.Prelude.{slice_get, Some, Err, IfOk, Bool};
ghost use Rattle.std.specs.Int.{div_ceil};
ghost use Rattle.std.specs.List.{count_by};
ghost use Rattle.avail_bits.specs.Bitstreams.{bits_of};
ghost use Rattle.avail_bits.specs.declared.error.BitsError.TheVariants.{Short};

use crate::error::BitsError;
use crate::words::{WORD_BITS, count_words, ones_below, word_at};
use bytes::Bytes;
use std::alloc::Global;
use std::marker::Model;
use std::sync::ledger::Ledger;
use tile_types::Steps;

/// Availability bits (OGC 22-025r4, "Availability"), which contracts see as the list of their truth
/// values. A constant takes no memory; a bitstream shares its bytes and has a table of counts.
#[derive(Drop)]
pub struct Bits {
    form: Form,
}

/// Where the bits come from.
#[derive(Drop)]
enum Form {
    /// One value for all.
    Constant {
        value: bool,
        count: u64,
    },
    /// The first `count` bits of the bytes; `counts[i]` of the first `64 * i` are set.
    Bitstream {
        bytes: Bytes,
        counts: Vec<u64>,
        count: u64,
    },
}

impl Model for Bits {
    ghost use Rattle.std.specs.Prelude.{Bool, List};
    ghost use Rattle.avail_bits.specs.Forms.{form_bits, IsForm};

    ghost Value = { List Bool };

    ghost view = { λ b. form_bits b.form };

    ghost invariant = { λ b. IsForm b.form };
}

impl Bits {
    /// As many bits of one value.
    pub fn constant(value: bool, count: u64) -> Bits
        ensures { result ≡ replicate count value }
    {
        Bits {
            form: Form::Constant { value, count },
        }
    }

    /// The first `count` bits of a bitstream: bit `i` is bit `i % 8` of byte `i / 8`, counted from
    /// the lowest. The bytes are shared. `Short` where they are too few.
    pub fn from_bytes(alloc: Global, bytes: Bytes, count: u64) -> Result<Bits, BitsError>
        ensures ok { IfOk result (λ bits. bits ≡ bits_of bytes count) }
        ensures short { (result ≡ Err Short) ↔ (length bytes < div_ceil count 8) }
    {
        if (bytes.len() as u64) < count.div_ceil(8) {
            return Err(BitsError::Short);
        }
        match count_words(alloc, bytes.as_slice(), (count / WORD_BITS) as usize) {
            Ok(counts) => Ok(Bits {
                form: Form::Bitstream {
                    bytes,
                    counts,
                    count,
                },
            }),
            Err(_) => Err(BitsError::OutOfMemory),
        }
    }

    /// How many bits there are.
    pub fn len(&self) -> u64
        ensures { result ≡ length self.now }
    {
        match &self.form {
            Form::Constant { count, .. } => *count,
            Form::Bitstream { count, .. } => *count,
        }
    }

    /// Bit `i`, which counts as one step.
    #[inline]
    pub fn bit<L: Ledger>(&self, i: u64, steps: &mut Steps<L>) -> bool
        requires { i < length self.now }
        ensures value { slice_get self.now i ≡ Some result }
        ensures step { steps.new ≡ steps.old + 1 }
    {
        steps.tick();
        match &self.form {
            Form::Constant { value, .. } => *value,
            Form::Bitstream { bytes, .. } => {
                bytes.as_slice()[(i / 8) as usize] >> (i % 8) & 1 == 1
            }
        }
    }

    /// How many of the first `i` bits are true.
    #[inline]
    pub fn rank(&self, i: u64) -> u64
        requires { i ≤ length self.now }
        ensures { result ≡ count_by (λ b. b) (take i self.now) }
    {
        match &self.form {
            Form::Constant { value, .. } => { if *value { i } else { 0 } }
            Form::Bitstream { bytes, counts, .. } => {
                let word = (i / WORD_BITS) as usize;
                counts[word] + ones_below(word_at(bytes.as_slice(), word), i % WORD_BITS)
            }
        }
    }
}
