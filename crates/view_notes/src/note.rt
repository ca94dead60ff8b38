//! What is noted of a visited node.

use crate::change::Change;

/// What a visited node is to its view.
#[derive(Clone, Copy, Debug, PartialEq, Eq)]
pub enum Role {
    /// It waits for a document.
    Pending,
    /// A tile that doesn't want its children.
    Leaf,
    /// A tile that wants its children, which are shown beside it (OGC 22-025r4, "Refinement", ADD).
    Adding,
    /// A tile that wants its children, which are shown in its place (REPLACE).
    Replacing,
}

/// What is noted of a visited node. A content counts as often as the node names it.
#[derive(Clone, Copy, Debug, PartialEq, Eq)]
pub struct Note {
    /// The number of its parent's note.
    pub parent: Option<u32>,
    /// How many of its own contents aren't absent.
    pub own: u32,
    /// How many of those are resident.
    pub resident: u32,
    /// How many of its children aren't ready, if it wants them.
    pub unready: u32,
    pub role: Role,
    /// Whether its place can be filled by what is resident.
    pub ready: bool,
}

impl Note {
    ghost use Rattle.std.specs.Prelude.{◌≡◌, ◌≤◌, true};
    ghost use Rattle.cut_core.specs.declared.findings.TheConstants.{VISITED_LIMIT};
    ghost use Rattle.view_notes.specs.Asking.{lacks_some, waits};
    ghost use Rattle.view_notes.specs.Notes.{is_kept, ready_of};
    ghost use Rattle.view_notes.specs.Rising.{with_child, with_ready};
    ghost use Rattle.view_notes.specs.Users.{changed_note};

    /// Whether it tells that its node is ready.
    pub fn tells_ready(self) -> bool
        ensures { result ≡ ready_of self }
    {
        match self.role {
            Role::Pending => false,
            Role::Leaf => self.resident == self.own,
            Role::Adding => {
                if self.own == 0 {
                    self.unready == 0
                } else {
                    self.resident == self.own
                }
            }
            Role::Replacing => { self.own != 0 && self.resident == self.own || self.unready == 0 }
        }
    }

    /// Whether its node keeps its own contents.
    pub fn is_kept(self) -> bool
        ensures { result ≡ is_kept self }
    {
        match self.role {
            Role::Pending => false,
            Role::Leaf | Role::Adding => true,
            Role::Replacing => self.unready != 0,
        }
    }

    /// Whether its node waits for a document.
    pub fn waits(self) -> bool
        ensures { result ≡ waits self }
    {
        match self.role {
            Role::Pending => true,
            Role::Leaf | Role::Adding | Role::Replacing => false,
        }
    }

    /// Whether its node keeps its own contents, and one of them is missing.
    pub fn lacks_some(self) -> bool
        ensures { result ≡ lacks_some self }
    {
        self.is_kept() && self.resident < self.own
    }

    /// The same note, of a node that is as ready as this.
    pub fn with_ready(self, ready: bool) -> Note
        ensures { result ≡ with_ready ready self }
    {
        Note { ready, ..self }
    }

    /// The same note, of a node one child more of which is ready, or one less.
    pub fn with_child(self, ready: bool) -> Note
        requires some { ready ≡ true → 1 ≤ self.unready }
        requires few { self.unready ≤ VISITED_LIMIT }
        ensures { result ≡ with_child ready self }
    {
        let unready = if ready {
            self.unready - 1
        } else {
            self.unready + 1
        };
        Note { unready, ..self }
    }

    /// The same note, of a node one content of which has changed so. Only a content that is missing
    /// becomes resident or absent, and only a resident one goes.
    pub fn with_change(self, change: Change) -> Note
        ensures { result ≡ changed_note change self }
    {
        let lacks = self.resident < self.own;
        match change {
            Change::Resident => {
                let resident = if lacks {
                    self.resident + 1
                } else {
                    self.resident
                };
                Note { resident, ..self }
            }
            Change::Absent => {
                let own = if lacks { self.own - 1 } else { self.own };
                Note { own, ..self }
            }
            Change::Gone => Note {
                resident: self.resident.saturating_sub(1),
                ..self
            },
        }
    }
}
