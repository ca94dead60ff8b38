//! The notes that a walk takes.

ghost use Rattle.std.specs.Prelude.{◌≡◌, ◌<◌, ◌≤◌, ◌∷◌, [], Err, IsErrOf, MatchResult, OnOk};
ghost use Rattle.std.specs.Prelude.{if◌then◌else◌, length};
ghost use Rattle.cut_core.specs.Walk.{found_in, nothing_found, with_note, with_note_at, with_shown};

use crate::error::{CutError, NoRoom};
use crate::own::Own;
use expanded_tree::Node;
use std::alloc::{AllocError, Global};

/// How many nodes a view may visit.
pub const VISITED_LIMIT: usize = 65_536;

/// A note of a visited node.
#[derive(Clone, Copy, Debug, PartialEq, Eq)]
pub struct Visit {
    pub node: Node,
    /// The node by whose volume its distance is measured: itself, or the nearest above it whose
    /// volume is known.
    pub measured_by: Option<Node>,
    /// The number of its parent among the visited nodes, from 0.
    pub parent: Option<u32>,
    /// Whether it is a tile that wants its children.
    pub wants: bool,
    /// Whether its own contents are kept.
    pub kept: bool,
}

/// What a walk has found so far.
#[derive(Drop)]
pub struct Findings {
    /// The nodes that are shown, in preorder.
    pub shown: Vec<Node>,
    /// A note of each visited node, in preorder.
    pub visits: Vec<Visit>,
}

impl Findings {
    /// Nothing yet.
    pub(crate) fn new(alloc: Global) -> Findings
        ensures { found_in result ≡ nothing_found }
    {
        Findings {
            shown: Vec::new(alloc),
            visits: Vec::new(alloc),
        }
    }

    /// Whether one more node may be visited. It takes no memory, so that too many nodes are told
    /// from want of memory.
    fn check_room(&self) -> Result<(), NoRoom>
        ensures { MatchResult result
            (λ _. length self.now.visits.items < VISITED_LIMIT)
            (λ _. VISITED_LIMIT ≤ length self.now.visits.items) }
    {
        if self.visits.len() >= VISITED_LIMIT {
            return Err(NoRoom);
        }
        Ok(())
    }

    /// Notes one more visited node.
    pub(crate) fn note(&mut self, visit: Visit) -> Result<(), CutError>
        ensures ok { OnOk result (found_in self.new ≡ with_note (found_in self.old) visit) }
        ensures within { OnOk result (length self.old.visits.items < VISITED_LIMIT) }
        ensures full { VISITED_LIMIT ≤ length self.old.visits.items
            → result ≡ Err CutError.TooLarge }
        ensures too_large { IsErrOf result CutError.TooLarge
            → VISITED_LIMIT ≤ length self.old.visits.items }
    {
        self.check_room()?;
        self.visits.push(visit)?;
        Ok(())
    }

    /// Notes an earlier node again.
    pub(crate) fn note_again(&mut self, at: usize, visit: Visit)
        requires { at < length self.old.visits.items }
        ensures { found_in self.new ≡ with_note_at (found_in self.old) at visit }
    {
        self.visits[at] = visit;
    }

    /// Shows the node, if its own contents are resident.
    pub(crate) fn show(&mut self, node: Node, own: Own) -> Result<(), AllocError>
        ensures { let shown = if own.resident then node ∷ [] else [] in
            OnOk result (found_in self.new ≡ with_shown (found_in self.old) shown) }
    {
        if own.resident {
            self.shown.push(node)?;
        }
        Ok(())
    }
}
