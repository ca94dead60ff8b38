//! Readiness is brought up to date from a node upwards.

ghost use Rattle.std.specs.Prelude.{◌≡◌, ◌<◌, ◌≤◌, ◌==◌, ◌&&◌, ◌||◌, ℕ, Bool, List, Some, length, not};
ghost use Rattle.std.specs.Prelude.{slice_get, true};
ghost use Rattle.cut_core.specs.declared.findings.TheConstants.{VISITED_LIMIT};
ghost use Rattle.view_notes.specs.Agreement.{ArePlaced, AreReadBut, SameFixed};
ghost use Rattle.view_notes.specs.Notes.{ready_of};
ghost use Rattle.view_notes.specs.Rising.{Falls, ReadyAreRight};

use crate::lacking::Lacking;
use crate::note::Note;

/// Notes that the node is as ready as this, and counts that at its parent. Answers whether the
/// parent keeps its own contents no more.
fn turn(notes: &mut [Note], at: usize, note: Note, parent: usize, ready: bool) -> bool
    requires few { length notes.old ≤ VISITED_LIMIT }
    requires placed { ArePlaced 0 notes.old }
    requires here { slice_get notes.old at ≡ Some note }
    requires below { note.parent ≡ Some parent }
    requires other { note.ready ≡ not ready }
    requires read { ready ≡ ready_of note }
    ensures before { parent < at }
    ensures placed { ArePlaced 0 notes.new }
    ensures fixed { SameFixed notes.old notes.new }
    ensures read { (doubt : ℕ → Bool) → AreReadBut (λ i. (at == i) || doubt i) 0 notes.old
        → AreReadBut (λ i. (parent == i) || doubt i) 0 notes.new }
    ensures right { ready ≡ true → ReadyAreRight notes.old → ReadyAreRight notes.new }
    ensures falls { ready ≡ true → (lacking : ℕ → Bool)
        → Falls lacking (not (result && lacking parent)) notes.old notes.new }
{
    let above = notes[parent];
    let counted = above.with_child(ready);
    notes[at] = note.with_ready(ready);
    notes[parent] = counted;
    above.is_kept() & !counted.is_kept()
}

/// Whether a node that keeps its own contents no more has one that is still to be loaded.
fn leaves<L: Lacking>(falls: bool, number: u32, lacking: &L) -> bool
    ensures { result ≡ (falls && L.lacking lacking.now number) }
{
    falls && lacking.is_lacking(number)
}

/// Brings readiness up to date from this node upwards, where no other is in doubt. Answers whether
/// no node that keeps its own contents no more has one that is still to be loaded.
pub fn settle<L: Lacking>(notes: &mut [Note], first: u32, lacking: &L) -> bool
    requires few { length notes.old ≤ VISITED_LIMIT }
    requires placed { ArePlaced 0 notes.old }
    requires within { first < length notes.old }
    ensures placed { ArePlaced 0 notes.new }
    ensures fixed { SameFixed notes.old notes.new }
    ensures read { (doubt : ℕ → Bool) → AreReadBut (λ i. (first == i) || doubt i) 0 notes.old
        → AreReadBut doubt 0 notes.new }
    ensures right { ReadyAreRight notes.old → ReadyAreRight notes.new }
    ensures falls { ReadyAreRight notes.old
        → Falls (L.lacking lacking.now) result notes.old notes.new }
{
    let mut at = first as usize;
    let mut none_leaves = true;
    loop {
        let note = notes[at];
        let ready = note.tells_ready();
        if ready == note.ready {
            return none_leaves;
        }
        let Some(parent) = note.parent else {
            notes[at] = note.with_ready(ready);
            return none_leaves;
        };
        let falls = turn(notes, at, note, parent as usize, ready);
        let leaves = leaves(falls, parent, lacking);
        none_leaves = none_leaves & !leaves;
        at = parent as usize;
    }
}
