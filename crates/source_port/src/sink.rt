//! What a sink is.

ghost use Rattle.std.specs.Prelude.{◌≡◌, ℕ, List, Option};
ghost use Rattle.source_port.specs.Puts.{CountsPut, RisesAtFailure, Writes};

use std::alloc::Global;
use thiserror::Error;

/// Why a piece wasn't put whole.
#[derive(Clone, Copy, Debug, PartialEq, Eq, Drop, Error)]
pub enum PutError {
    /// The sink is at fault, and its count of faults rose.
    #[error("the sink failed")]
    SinkFailed,
    /// Memory ran out.
    #[error("out of memory")]
    OutOfMemory,
}

/// Where bytes are put, piece by piece.
pub trait Sink {
    /// The bytes that the sink holds, where they are told.
    ghost written: { Self → Option (List ℕ) };

    /// How many puts failed by the sink's own fault.
    ghost faults: { Self → ℕ };

    /// How many puts were made, but for those that found no memory.
    ghost puts: { Self → ℕ };

    /// Puts a piece behind what the sink holds.
    fn put(&mut self, alloc: Global, piece: &[u8]) -> Result<(), PutError>
        ensures written { Writes result (written self.old) (written self.new) piece.now }
        ensures faults { RisesAtFailure result (faults self.old) (faults self.new) }
        ensures puts { CountsPut result (puts self.old) (puts self.new) };

    /// How many puts failed by the sink's own fault.
    fn faults(&self) -> u64
        ensures { result ≡ faults self.now };
}
