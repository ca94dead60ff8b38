//! What a core keeps.

ghost use Rattle.std.specs.Prelude.{◌↔◌, ◌<◌, ◌≡◌, length, true};
ghost use Rattle.engine_state.specs.Journal.{fullness};
ghost use Rattle.engine_core.specs.Mirrors.{Lives};

use crate::held_pins::FramePins;
use engine_state::{Entry, Flight, JOURNAL_MARGIN, Seen};
use indexmap::IndexSet;
use lists::RoomList;
use load_queue::{OrderRank, RankedQueue};
use tile_arena::Arena;
use tile_cache::Cache;
use tile_types::{Key, Text};
use view_notes::ViewNotes;

/// What a core keeps: its journal, and what is read of it.
#[derive(Drop)]
pub(crate) struct Parts {
    pub(crate) entries: RoomList<Entry>,
    /// How many entries the journal may have.
    pub(crate) room: u32,
    pub(crate) closed: bool,
    /// How many frames there were so far.
    pub(crate) looks: u64,
    /// The latest view of each viewer, by rising viewer.
    pub(crate) views: Vec<Seen>,
    /// What is kept of the frames that are held, by rising number.
    pub(crate) frames: RoomList<FramePins>,
    /// The keys that are being fetched.
    pub(crate) flying: RoomList<Flight>,
    /// A key for each attempt that failed.
    pub(crate) attempts: RoomList<Key>,
    /// The keys for whose contents there was no room.
    pub(crate) squeezed: RoomList<Key>,
    /// The addresses of the absent contents. The arena's store has the absent documents.
    pub(crate) absent: IndexSet<Text>,
    pub(crate) arena: Arena,
    pub(crate) cache: Cache,
    /// The notes of the latest views, and whether they are those of the state.
    pub(crate) notes: Vec<ViewNotes>,
    pub(crate) noted: bool,
    /// What is wanted, and whether it is what the latest views want.
    pub(crate) queue: RankedQueue<OrderRank>,
    pub(crate) filled: bool,
}

impl Parts {
    /// Whether the journal has no room for one more entry, the end of what that begins, and what
    /// must still fit.
    pub(crate) fn is_full(&self) -> bool
        requires { Lives self.now }
        ensures { (result ≡ true) ↔ (self.now.room < fullness self.now.entries.items) }
    {
        let room = self.room as usize;
        room < JOURNAL_MARGIN
            || room - JOURNAL_MARGIN < self.flying.len()
            || room - JOURNAL_MARGIN - self.flying.len() < self.frames.len()
            || room - JOURNAL_MARGIN - self.flying.len() - self.frames.len() < self.entries.len()
    }
}
