//! The notes of several views.

ghost use Rattle.std.specs.Prelude.{◌≡◌, true};
ghost use Rattle.view_notes.specs.AllViews.{FollowEach, TellsLeavingEach};
ghost use Rattle.view_notes.specs.Changes.{BecomesAbsent, BecomesResident, Goes, GoesEach};
ghost use Rattle.view_notes.specs.Keeping.{any_keeps as any_keeps_of};
ghost use Rattle.view_notes.specs.Users.{Happens, adds_to};

use crate::awaited::{Awaited, NoneAwaited};
use crate::change::Change;
use crate::view_notes::ViewNotes;
use tile_types::Text;

/// Whether one of the views keeps the content at this address. It takes no memory.
pub fn any_keeps(notes: &[ViewNotes], address: &Text) -> bool
    ensures { result ≡ any_keeps_of notes.now address.now }
{
    notes.iter().any(|view| view.keeps(address))
}

/// Follows a content in the notes of each view.
fn all_follow<A: Awaited>(
    notes: &mut [ViewNotes],
    address: &Text,
    change: Change,
    awaited: &A,
) -> bool
    ensures notes { FollowEach (Happens change address.now) notes.old notes.new }
    ensures leaving { adds_to change ≡ true → TellsLeavingEach (Happens change address.now)
        (A.awaited awaited.now) notes.old result }
{
    let mut none_leaves = true;
    for view in notes.iter_mut() {
        let none = view.follow(address, change, awaited);
        none_leaves = none_leaves & none;
    }
    none_leaves
}

/// Follows, in the notes of each view, a content that has become resident, and was neither
/// resident nor absent. Answers whether no view's tile that isn't kept any more has an awaited
/// content: then what all views want loses that content alone. It takes no memory.
pub fn all_become_resident<A: Awaited>(notes: &mut [ViewNotes], address: &Text, awaited: &A) -> bool
    ensures notes { FollowEach (BecomesResident address.now) notes.old notes.new }
    ensures leaving { TellsLeavingEach (BecomesResident address.now) (A.awaited awaited.now)
        notes.old result }
{
    all_follow(notes, address, Change::Resident, awaited)
}

/// The same, of a content that is known to be absent.
pub fn all_become_absent<A: Awaited>(notes: &mut [ViewNotes], address: &Text, awaited: &A) -> bool
    ensures notes { FollowEach (BecomesAbsent address.now) notes.old notes.new }
    ensures leaving { TellsLeavingEach (BecomesAbsent address.now) (A.awaited awaited.now)
        notes.old result }
{
    all_follow(notes, address, Change::Absent, awaited)
}

/// Follows, in the notes of each view, a content that was resident, and not absent, and has gone.
/// It takes no memory.
pub fn all_go(notes: &mut [ViewNotes], address: &Text)
    ensures { FollowEach (Goes address.now) notes.old notes.new }
{
    all_follow(notes, address, Change::Gone, &NoneAwaited);
}

/// The same, of several contents with different addresses. It takes no memory.
pub fn all_go_each(notes: &mut [ViewNotes], addresses: &[Text])
    ensures { FollowEach (GoesEach addresses.now) notes.old notes.new }
{
    for address in addresses {
        all_go(notes, address);
    }
}
