//! Which noted nodes lack a content, by which contents are awaited.

ghost use Rattle.std.specs.List.{list_any};
ghost use Rattle.std.specs.Prelude.{[], slice_index_or};

use crate::awaited::Awaited;
use crate::content_index::ContentIndex;
use crate::lacking::Lacking;

/// The nodes that name an awaited content.
#[derive(Drop)]
pub struct NodesLacking<'a, A> {
    pub index: &'a ContentIndex,
    pub awaited: &'a A,
}

impl<A: Awaited> Lacking for NodesLacking<'_, A> {
    ghost lacking = { λ nodes number. list_any (A.awaited nodes.awaited.now)
        (slice_index_or nodes.index.now number []) };

    fn is_lacking(&self, number: u32) -> bool {
        (number as usize) < self.index.len() && self.index.names_awaited(number, self.awaited)
    }
}
