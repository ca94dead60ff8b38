//! A frame is given back.

ghost use Rattle.std.specs.Prelude.{◌≡◌, ◌++◌, ◌∷◌, [], true, IsTrue};
ghost use Rattle.engine_state.specs.Frames.{is_held};
ghost use Rattle.engine_core.specs.Mirrors.{Lives, state_of};

use crate::frames::take_frame;
use crate::parts::Parts;
use crate::pins::unpin_all;
use engine_state::Entry;
use lists::RoomList;
use tile_types::Key;

/// Whether the queue stays filled where nothing is squeezed any more. It takes no memory.
fn stays_filled(filled: bool, squeezed: &RoomList<Key>) -> bool
    ensures { result ≡ true → (filled ≡ true) × (squeezed.now.items ≡ []) }
{
    filled && squeezed.len() == 0
}

impl Parts {
    /// Notes that the frame of a number was given back. It takes no memory.
    pub(crate) fn add_returned(&mut self, pass: u32, id: u64)
        requires lives { Lives self.old }
        requires held { IsTrue (is_held (state_of self.old).frames id) }
        ensures lives { Lives self.new }
        ensures journal { self.new.entries.items
            ≡ self.old.entries.items ++ Entry.Returned pass id ∷ [] }
        ensures room { self.new.room ≡ self.old.room }
    {
        let frame = take_frame(&mut self.frames, id);
        unpin_all(&mut self.cache, frame.addresses.as_slice());
        // What was squeezed may be taken again.
        self.filled = stays_filled(self.filled, &self.squeezed);
        self.squeezed.clear();
        self.entries.push_reserved(Entry::Returned { pass, id });
    }
}
