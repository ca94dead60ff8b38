//! The bitstreams of a subtree, as they are written.

ghost use Rattle.std.specs.Prelude.{◌≡◌, ◌∷◌, [], ◌++◌, length, OnOk};
ghost use Rattle.std.specs.List.{list_all};
ghost use Rattle.subtree_write.specs.Rows as rows;
ghost use Rattle.subtree_write.specs.Rows.{binary, streams, views};
ghost use Rattle.subtree_write.specs.StreamsSeen.{AddsRows};
ghost use Rattle.subtree_write.specs.Texts.{availability_text};

use crate::packing::push_stream;
use crate::texts::{push_bitstream, push_constant};
use std::alloc::{AllocError, Global};

/// Where the bytes of a stream are in the binary chunk.
#[derive(Clone, Copy)]
pub struct View {
    pub byte_offset: usize,
    pub byte_length: usize,
}

/// The streams so far, and their bytes.
#[derive(Drop)]
pub struct Streams {
    pub views: Vec<View>,
    pub binary: Vec<u8>,
}

fn first_bit(bits: &[bool]) -> bool
    ensures { result ≡ rows.first_bit bits.now }
{
    match bits {
        [] => false,
        [bit, ..] => *bit,
    }
}

/// Whether all bits are the same.
fn is_constant(bits: &[bool]) -> bool
    ensures { result ≡ rows.is_constant bits.now }
{
    let first = first_bit(bits);
    bits.iter().all(|bit| *bit == first)
}

impl Streams {
    pub fn new(alloc: Global) -> Streams
        ensures views { result.views.items ≡ [] }
        ensures binary { result.binary.items ≡ [] }
    {
        Streams {
            views: Vec::new(alloc),
            binary: Vec::new(alloc),
        }
    }

    /// Writes a row of bits behind the JSON text, and its bytes behind the others, if it is a
    /// stream.
    pub fn push_row(&mut self, json: &mut Vec<u8>, bits: &[bool]) -> Result<(), AllocError>
        ensures json { OnOk result (json.new.items
            ≡ json.old.items ++ availability_text (length self.old.views.items) bits.now) }
        ensures rows { OnOk result (AddsRows self.old self.new (bits.now ∷ [])) }
    {
        if is_constant(bits) {
            push_constant(json, first_bit(bits))?;
            return Ok(());
        }
        push_bitstream(json, self.views.len())?;
        let byte_offset = self.binary.len();
        let byte_length = push_stream(&mut self.binary, bits)?;
        self.views.push(View {
            byte_offset,
            byte_length,
        })?;
        Ok(())
    }
}
