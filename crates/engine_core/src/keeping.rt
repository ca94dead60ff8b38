//! Which contents the latest views keep.

ghost use Rattle.view_notes.specs.Keeping.{any_keeps};

use tile_cache::Keeping;
use tile_types::Text;
use view_notes::{ViewNotes, any_keeps};

/// The contents that views keep, by their notes.
#[derive(Drop)]
pub(crate) struct KeptByViews<'a> {
    pub(crate) notes: &'a [ViewNotes],
}

impl Keeping for KeptByViews<'_> {
    ghost keeps = { λ k. any_keeps k.notes.now };

    fn keeps(&self, address: &Text) -> bool {
        any_keeps(self.notes, address)
    }
}
