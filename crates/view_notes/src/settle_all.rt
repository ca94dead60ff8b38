//! Readiness is brought up to date at every node.

ghost use Rattle.std.specs.Prelude.{◌≤◌, length};
ghost use Rattle.cut_core.specs.declared.findings.TheConstants.{VISITED_LIMIT};
ghost use Rattle.view_notes.specs.Agreement.{Agree, ArePlaced, SameFixed};

use crate::lacking::Lacking;
use crate::note::Note;
use crate::settle::settle;

/// No node has a content that is still to be loaded.
#[derive(Drop)]
struct NoneLacking;

impl Lacking for NoneLacking {
    ghost use Rattle.std.specs.Prelude.{false};

    ghost lacking = { λ _ _. false };

    fn is_lacking(&self, _number: u32) -> bool {
        false
    }
}

/// Brings readiness up to date at every node. Where each was ready, a node turns once at most.
pub fn settle_all(notes: &mut [Note])
    requires few { length notes.old ≤ VISITED_LIMIT }
    requires placed { ArePlaced 0 notes.old }
    ensures agree { Agree notes.new }
    ensures fixed { SameFixed notes.old notes.new }
{
    for number in 0..notes.len() {
        settle(notes, number as u32, &NoneLacking);
    }
}
