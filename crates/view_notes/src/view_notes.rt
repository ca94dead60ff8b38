//! The notes of a view.

ghost use Rattle.std.specs.Prelude.{◌≡◌, ◌<◌, ◌≤◌, Bool, IfOk, OnOk, false, length, option_copied, slice_get, true};
ghost use Rattle.cut_core.specs.WantMap.{wants_in};
ghost use Rattle.cut_core.specs.declared.findings.TheConstants.{VISITED_LIMIT};
ghost use Rattle.view_notes.specs.Agreement.{Agree, ArePlaced, SameFixed};
ghost use Rattle.view_notes.specs.Asking.{AddsWantsOf, AddsWishes, CountsWaiting, TellsWanted};
ghost use Rattle.view_notes.specs.Asking.{TellsWantedBy};
ghost use Rattle.view_notes.specs.Changes.{BecomesAbsent, BecomesResident, Goes};
ghost use Rattle.view_notes.specs.Follows.{Follow, TellsKept, TellsLeaving, nothing_noted};
ghost use Rattle.view_notes.specs.Keeping.{keeps_content};
ghost use Rattle.view_notes.specs.Names.{names_of};
ghost use Rattle.view_notes.specs.Users.{Happens, adds_to};

use crate::awaited::{Awaited, NoneAwaited};
use crate::change::Change;
use crate::content_index::ContentIndex;
use crate::following::{follow, keeps};
use crate::nodes_lacking::NodesLacking;
use crate::note::Note;
use crate::note_lists::NoteLists;
use crate::settle_all::settle_all;
use cut_core::{Holdings, WantMap};
use std::alloc::{AllocError, Global};
use std::marker::Model;
use tile_types::{Key, Text, TileFacts, WantList};

/// What is noted of the nodes that a view visits, which tells what the view keeps. Contracts see
/// the notes with the addresses that the nodes name, what their wants are ranked by, and the keys
/// that they wait for.
#[derive(Drop)]
pub struct ViewNotes {
    notes: Vec<Note>,
    index: ContentIndex,
    ranks: Vec<TileFacts>,
    keys: Vec<Key>,
}

impl Model for ViewNotes {
    ghost use Rattle.view_notes.specs.Follows.{Noted};
    ghost use Rattle.view_notes.specs.Kept.{AreKept};

    ghost Value = { Noted };

    ghost view = { λ n. record {
      notes = n.notes.items;
      names = n.index;
      ranks = n.ranks.items;
      keys = n.keys.items;
    } };

    ghost invariant = { λ n. AreKept n.notes.items n.index n.ranks.items };
}

/// The key at a place, counted from 0.
fn key_at(keys: &[Key], place: usize) -> Option<&Key>
    ensures { option_copied result ≡ slice_get keys.now place }
{
    keys.get(place)
}

impl ViewNotes {
    /// The notes of no node, as of a view that visits more than 65,536. It takes no memory.
    pub fn new(alloc: Global) -> ViewNotes
        ensures { result ≡ nothing_noted }
    {
        ViewNotes {
            notes: Vec::new(alloc),
            index: ContentIndex::new(alloc),
            ranks: Vec::new(alloc),
            keys: Vec::new(alloc),
        }
    }

    /// The notes of these nodes, which are brought up to date.
    pub(crate) fn from_lists(alloc: Global, lists: NoteLists) -> Result<ViewNotes, AllocError>
        requires few { length lists.notes.items ≤ VISITED_LIMIT }
        requires placed { ArePlaced 0 lists.notes.items }
        requires named { length (names_of lists.names) ≡ length lists.notes.items }
        requires ranked { length lists.ranks.items ≡ length lists.notes.items }
        ensures agree { IfOk result (λ n. Agree n.notes) }
        ensures fixed { IfOk result (λ n. SameFixed lists.notes.items n.notes) }
        ensures names { IfOk result (λ n. n.names ≡ names_of lists.names) }
        ensures ranks { IfOk result (λ n. n.ranks ≡ lists.ranks.items) }
        ensures keys { IfOk result (λ n. n.keys ≡ lists.keys.items) }
    {
        let NoteLists {
            mut notes,
            names,
            ranks,
            keys,
        } = lists;
        settle_all(&mut notes);
        let index = ContentIndex::from_names(alloc, names)?;
        Ok(ViewNotes {
            notes,
            index,
            ranks,
            keys,
        })
    }

    /// Follows a content that has become resident, and was neither resident nor absent. Answers
    /// whether no tile that isn't kept any more has an awaited content: then the view's wishes
    /// lose that content alone. It takes no memory.
    pub fn becomes_resident<A: Awaited>(&mut self, address: &Text, awaited: &A) -> bool
        ensures notes { Follow (BecomesResident address.now) self.old self.new }
        ensures leaving { TellsLeaving (BecomesResident address.now) (A.awaited awaited.now)
            self.old result }
    {
        self.follow(address, Change::Resident, awaited)
    }

    /// The same, of a content that is known to be absent.
    pub fn becomes_absent<A: Awaited>(&mut self, address: &Text, awaited: &A) -> bool
        ensures notes { Follow (BecomesAbsent address.now) self.old self.new }
        ensures leaving { TellsLeaving (BecomesAbsent address.now) (A.awaited awaited.now)
            self.old result }
    {
        self.follow(address, Change::Absent, awaited)
    }

    /// Follows a content that was resident, and not absent, and has gone. It takes no memory.
    pub fn goes(&mut self, address: &Text)
        ensures { Follow (Goes address.now) self.old self.new }
    {
        self.follow(address, Change::Gone, &NoneAwaited);
    }

    /// Whether the view keeps the content at this address. It takes no memory.
    pub fn keeps(&self, address: &Text) -> bool
        ensures kept { TellsKept address.now self.now result }
        ensures noted { result ≡ keeps_content self.now address.now }
    {
        keeps(&self.notes, self.index.users(address))
    }

    /// Adds what the node of this number wants, where `waiting` nodes before it wait for a key.
    /// Answers how many do up to it.
    fn put_wants_of<H: Holdings>(
        &self,
        alloc: Global,
        holdings: &H,
        number: usize,
        waiting: usize,
        wants: &mut WantMap,
    ) -> Result<usize, AllocError>
        requires { number < length self.now.notes }
        ensures waiting { IfOk result (λ count.
            CountsWaiting self.now (H.holdings holdings.now) number waiting count) }
        ensures wants { OnOk result (AddsWantsOf self.now (H.holdings holdings.now) number waiting
            (wants_in wants.old) (wants_in wants.new)) }
    {
        let note = self.notes[number];
        let facts = self.ranks[number];
        if note.waits() {
            let Some(key) = key_at(&self.keys, waiting) else {
                return Ok(waiting);
            };
            wants.put(key.copy(alloc)?, facts)?;
            return Ok(waiting + 1);
        }
        if note.lacks_some() {
            self.index
                .put_missing(alloc, holdings, number, facts, wants)?;
        }
        Ok(waiting)
    }

    /// Adds what the view wants while these contents are there, in preorder: a want joins an
    /// earlier one of its key. It asks neither the tree nor its volumes.
    pub fn put_wants<H: Holdings>(
        &self,
        alloc: Global,
        holdings: &H,
        wants: &mut WantMap,
    ) -> Result<(), AllocError>
        ensures { OnOk result (AddsWishes (H.holdings holdings.now) self.now
            (wants_in wants.old) (wants_in wants.new)) }
    {
        let mut waiting = 0;
        for number in 0..self.notes.len() {
            waiting = self.put_wants_of(alloc, holdings, number, waiting, wants)?;
        }
        Ok(())
    }

    /// The keys that the view wants while these contents are there, as `cut_core::want` gives them
    /// for the tree.
    pub fn wants<H: Holdings>(&self, alloc: Global, holdings: &H) -> Result<WantList, AllocError>
        ensures { IfOk result (λ wants. TellsWanted (H.holdings holdings.now) self.now wants) }
    {
        let mut wants = WantMap::new(alloc);
        self.put_wants(alloc, holdings, &mut wants)?;
        Ok(wants.into_list(alloc)?)
    }

    /// Follows a content.
    pub(crate) fn follow<A: Awaited>(&mut self, address: &Text, change: Change, awaited: &A) -> bool
        ensures notes { Follow (Happens change address.now) self.old self.new }
        ensures leaving { adds_to change ≡ true → TellsLeaving (Happens change address.now)
            (A.awaited awaited.now) self.old result }
    {
        let lacking = NodesLacking {
            index: &self.index,
            awaited,
        };
        follow(&mut self.notes, self.index.users(address), change, &lacking)
    }
}

/// The keys that several views want, each once, at its first place, in the order of the views.
pub fn wanted_by<H: Holdings>(
    alloc: Global,
    views: &[ViewNotes],
    holdings: &H,
) -> Result<WantList, AllocError>
    ensures { IfOk result (λ wants. TellsWantedBy (H.holdings holdings.now) views.now wants) }
{
    let mut wants = WantMap::new(alloc);
    for notes in views {
        notes.put_wants(alloc, holdings, &mut wants)?;
    }
    Ok(wants.into_list(alloc)?)
}
