//! What the latest views keep and want is noted anew, where it is out of date.

ghost use Rattle.std.specs.Prelude.{◌≡◌, ℕ, true, length, map, IfOk, OnOk};
ghost use Rattle.view_notes.specs.Asking.{AreNotesOfEach};
ghost use Rattle.view_notes.specs.Follows.{AreNotesOf};
ghost use Rattle.tree_nodes.specs.Trees.{stored_tree};
ghost use Rattle.engine_core.specs.Holding.{holdings_of};
ghost use Rattle.engine_core.specs.Mirrors.{HasRoom, Lives, SameJournal};

use crate::contents::Contents;
use crate::parts::Parts;
use cut_core::CutError;
use engine_state::Seen;
use error_test::View;
use std::alloc::{AllocError, Global};
use tile_arena::Arena;
use view_notes::{ViewNotes, look_at};

/// The notes of one view: of one that visits too many nodes there are none.
fn notes_of(
    alloc: Global,
    arena: &mut Arena,
    contents: &Contents<'_>,
    view: &View,
) -> Result<ViewNotes, AllocError>
    ensures notes { let holdings = holdings_of contents.now.cache.now.residents
        contents.now.absent.now.keys in
        IfOk result (λ notes. AreNotesOf notes view.now holdings (stored_tree arena.old.store)) }
    ensures store { arena.new.store ≡ arena.old.store }
{
    match look_at(alloc, arena, contents, view) {
        Ok(look) => Ok(look.notes),
        Err(CutError::TooLarge) => Ok(ViewNotes::new(alloc)),
        Err(CutError::OutOfMemory) => Err(AllocError),
    }
}

/// The notes of each view, in order.
fn notes_of_each(
    alloc: Global,
    arena: &mut Arena,
    contents: &Contents<'_>,
    views: &[Seen],
) -> Result<Vec<ViewNotes>, AllocError>
    ensures notes { let holdings = holdings_of contents.now.cache.now.residents
        contents.now.absent.now.keys in
        IfOk result (λ notes. AreNotesOfEach notes.items (map (λ seen. seen.view) views.now)
        holdings (stored_tree arena.old.store)) }
    ensures store { arena.new.store ≡ arena.old.store }
{
    let mut notes = Vec::with_capacity(alloc, views.len())?;
    for seen in views {
        notes.push(notes_of(alloc, arena, contents, &seen.view)?)?;
    }
    Ok(notes)
}

impl Parts {
    /// Notes what each of the latest views keeps and wants, where that isn't known.
    pub(crate) fn note(&mut self, alloc: Global) -> Result<(), AllocError>
        requires { Lives self.old }
        ensures lives { Lives self.new }
        ensures same { SameJournal self.old self.new }
        ensures space { (more : ℕ) → HasRoom more (length self.old.flying.items) self.old
            → HasRoom more (length self.new.flying.items) self.new }
        ensures noted { OnOk result (self.new.noted ≡ true) }
    {
        if self.noted {
            return Ok(());
        }
        let contents = Contents {
            cache: &self.cache,
            absent: &self.absent,
        };
        self.notes = notes_of_each(alloc, &mut self.arena, &contents, &self.views)?;
        self.noted = true;
        Ok(())
    }
}
