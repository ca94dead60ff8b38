//! A sink in memory, of which chosen puts fail.

ghost use Rattle.std.specs.Prelude.{◌≡◌, Some};
ghost use Rattle.source_port.specs.Memory.{new_sink, Puts};
ghost use Rattle.source_port.specs.Puts.{CountsPut, RisesAtFailure, Writes};

use crate::memory_source::lists;
use crate::sink::{PutError, Sink};
use std::alloc::Global;
use std::marker::Model;
use tile_types::NumberList;

/// A sink in memory, which tells what it holds. It numbers its puts from 1, and exactly those whose number is
/// listed fail and append nothing; a put that finds no memory takes no number.
#[derive(Drop)]
pub struct MemorySink {
    bytes: Vec<u8>,
    failing: NumberList,
    puts: u64,
    faults: u64,
}

impl Model for MemorySink {
    ghost use Rattle.source_port.specs.Memory.{SinkParts};

    ghost Value = { SinkParts };

    ghost view = { λ s. record {
      bytes = s.bytes.items;
      failing = s.failing;
      puts = s.puts;
      faults = s.faults;
    } };
}

impl MemorySink {
    /// An empty sink, of which the puts with these numbers fail.
    pub fn new(alloc: Global, failing: NumberList) -> MemorySink
        ensures { result ≡ new_sink failing }
    {
        MemorySink {
            bytes: Vec::new(alloc),
            failing,
            puts: 0,
            faults: 0,
        }
    }

    /// What was put, piece behind piece.
    pub fn bytes(&self) -> &[u8]
        ensures { result.now ≡ self.now.bytes }
    {
        self.bytes.as_slice()
    }
}

impl Sink for MemorySink {
    ghost written = { λ s. Some s.bytes };

    ghost faults = { λ s. s.faults };

    ghost puts = { λ s. s.puts };

    fn put(&mut self, _alloc: Global, piece: &[u8]) -> Result<(), PutError>
        ensures exact { Puts result self.old self.new piece.now }

        // What every sink ensures.
        ensures written { Writes result (Some self.old.bytes) (Some self.new.bytes) piece.now }
        ensures faults { RisesAtFailure result self.old.faults self.new.faults }
        ensures puts { CountsPut result self.old.puts self.new.puts }
    {
        let number = self.puts.saturating_add(1);
        if lists(&self.failing, number) {
            self.puts = number;
            self.faults = self.faults.saturating_add(1);
            return Err(PutError::SinkFailed);
        }
        if self.bytes.extend_from_slice(piece).is_err() {
            return Err(PutError::OutOfMemory);
        }
        self.puts = number;
        Ok(())
    }

    fn faults(&self) -> u64 {
        self.faults
    }
}
