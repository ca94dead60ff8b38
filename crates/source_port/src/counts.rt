//! Counts of calls and of faults.

ghost use Rattle.std.specs.Prelude.{◌≡◌, ◌≤◌};

use std::marker::Model;

/// How many calls were answered, want of memory aside, and how many of them failed. Each count stands still
/// at its last value.
#[derive(Drop)]
pub(crate) struct CallCounts {
    pub(crate) calls: u64,
    pub(crate) faults: u64,
}

impl Model for CallCounts {
    ghost use Rattle.source_port.specs.Counts.{Counts};

    ghost Value = { Counts };

    ghost view = { λ c. record { calls = c.calls; faults = c.faults } };
}

impl CallCounts {
    ghost use Rattle.source_port.specs.Counts.{no_calls, after_call, after_fault, HasRisen};

    pub(crate) fn new() -> CallCounts
        ensures { result ≡ no_calls }
    {
        CallCounts {
            calls: 0,
            faults: 0,
        }
    }

    /// Counts a call that didn't fail.
    pub(crate) fn count_call(&mut self)
        ensures { self.new ≡ after_call self.old }
    {
        self.calls = self.calls.saturating_add(1);
    }

    /// Counts a call that failed.
    pub(crate) fn count_fault(&mut self)
        ensures counted { self.new ≡ after_fault self.old }
        ensures risen { HasRisen self.old.faults self.new.faults }
        ensures never_falls { self.old.faults ≤ self.new.faults }
    {
        self.calls = self.calls.saturating_add(1);
        self.faults = self.faults.saturating_add(1);
    }
}
