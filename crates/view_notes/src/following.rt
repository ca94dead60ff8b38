//! Notes follow a content that changes.

ghost use Rattle.std.specs.Prelude.{◌≡◌, ◌≤◌, ℕ, false, length, true};
ghost use Rattle.std.specs.List.{list_any};
ghost use Rattle.cut_core.specs.declared.findings.TheConstants.{VISITED_LIMIT};
ghost use Rattle.view_notes.specs.Agreement.{Agree, ArePlaced, AreReadBut, SameFixed};
ghost use Rattle.view_notes.specs.Rising.{Falls, ReadyAreRight};
ghost use Rattle.view_notes.specs.Users.{AreWithin, FollowsChange, adds_to, changed_notes};
ghost use Rattle.view_notes.specs.Users.{is_among, keeps_at, no_lacking_leaves};

use crate::change::Change;
use crate::lacking::Lacking;
use crate::note::Note;
use crate::settle::settle;

/// Changes the note of each user.
fn change_users(notes: &mut [Note], users: &[u32], change: Change)
    requires { AreWithin users.now notes.old }
    ensures { notes.new ≡ changed_notes change users.now 0 notes.old }
{
    for user in users {
        let at = *user as usize;
        notes[at] = notes[at].with_change(change);
    }
}

/// Brings readiness up to date from each user upwards, where no other node is in doubt. Answers
/// whether no node that keeps its own contents no more has one that is still to be loaded.
fn settle_users<L: Lacking>(notes: &mut [Note], users: &[u32], lacking: &L) -> bool
    requires few { length notes.old ≤ VISITED_LIMIT }
    requires placed { ArePlaced 0 notes.old }
    requires within { AreWithin users.now notes.old }
    ensures placed { ArePlaced 0 notes.new }
    ensures fixed { SameFixed notes.old notes.new }
    ensures read { AreReadBut (is_among users.now) 0 notes.old
        → AreReadBut (λ i. false) 0 notes.new }
    ensures falls { ReadyAreRight notes.old
        → Falls (L.lacking lacking.now) result notes.old notes.new }
{
    let mut none_leaves = true;
    for user in users {
        let none = settle(notes, *user, lacking);
        none_leaves = none_leaves & none;
    }
    none_leaves
}

/// Brings the notes up to date when a content has changed. `users` are the numbers of the nodes
/// that name it. Answers, of a content that has become resident or absent, whether no node that
/// keeps its own contents no more has one that is still to be loaded. It takes no memory.
pub fn follow<L: Lacking>(notes: &mut [Note], users: &[u32], change: Change, lacking: &L) -> bool
    requires agree { Agree notes.old }
    requires within { AreWithin users.now notes.old }
    ensures follows { FollowsChange change users.now notes.old notes.new }
    ensures answer { adds_to change ≡ true
        → result ≡ no_lacking_leaves (L.lacking lacking.now) 0 notes.old notes.new }
{
    change_users(notes, users, change);
    settle_users(notes, users, lacking)
}

/// Whether one of these nodes keeps its own contents.
pub fn keeps(notes: &[Note], users: &[u32]) -> bool
    requires { AreWithin users.now notes.now }
    ensures { result ≡ list_any (keeps_at notes.now) users.now }
{
    for user in users {
        if notes[*user as usize].is_kept() {
            return true;
        }
    }
    false
}
