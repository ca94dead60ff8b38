//! Standard output as a sink.

ghost use Rattle.std.specs.Prelude.{◌≡◌, None};
ghost use Rattle.std.specs.Bool.{OnTrue};
ghost use Rattle.std.specs.Io.KnownBytes.{Appends};
ghost use Rattle.source_port.specs.Puts.{CountsExactly, CountsPut, RisesAtFailure, Writes};

use crate::counts::CallCounts;
use crate::sink::{PutError, Sink};
use std::alloc::Global;
use std::io;
use std::io::Write;
use std::marker::Model;

/// Standard output. It doesn't tell what was written.
#[derive(Drop)]
pub struct StdSink<R> {
    rt: R,
    counts: CallCounts,
}

impl<R> Model for StdSink<R> {
    ghost use Rattle.source_port.specs.Counts.{Counts};

    ghost Value = { Counts };

    ghost view = { λ s. s.counts };
}

impl<R: Print + Drop> StdSink<R> {
    ghost use Rattle.std.specs.Prelude.{◌≡◌};
    ghost use Rattle.source_port.specs.Counts.{no_calls};

    /// A sink that prints by this runtime. Contracts see it as its counts.
    pub fn new(rt: R) -> StdSink<R>
        ensures { result ≡ no_calls }
    {
        StdSink {
            rt,
            counts: CallCounts::new(),
        }
    }
}

impl<R: Print + Drop> Sink for StdSink<R> {
    ghost use Rattle.std.specs.Prelude.{None};

    ghost written = { λ _. None };

    ghost faults = { λ s. s.faults };

    ghost puts = { λ s. s.calls };

    fn put(&mut self, _alloc: Global, piece: &[u8]) -> Result<(), PutError>
        ensures counted { CountsExactly result self.old self.new }

        // What every sink ensures.
        ensures written { Writes result None None piece.now }
        ensures faults { RisesAtFailure result self.old.faults self.new.faults }
        ensures puts { CountsPut result self.old.calls self.new.calls }
    {
        if write_whole(&mut io::writer(&self.rt), piece) {
            self.counts.count_call();
            return Ok(());
        }
        self.counts.count_fault();
        Err(PutError::SinkFailed)
    }

    fn faults(&self) -> u64 {
        self.counts.faults
    }
}

/// Writes a piece, and answers whether all of it was written.
fn write_whole<W: Write>(writer: &mut W, piece: &[u8]) -> bool
    ensures { OnTrue result (Appends (W.contents writer.old) (W.contents writer.new) piece.now) }
{
    writer.write_all(piece).is_ok()
}
