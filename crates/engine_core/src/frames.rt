//! The frames that are held.

ghost use Rattle.std.specs.Prelude.{◌≡◌, ◌==◌, ◌+◌, Some, IsTrue, find};
ghost use Rattle.std.specs.List.{list_any, position};
ghost use Rattle.engine_state.specs.After.{without_first};

use crate::held_pins::FramePins;
use lists::RoomList;

/// Where the first frame of this number stands.
fn place_of(frames: &[FramePins], id: u64) -> Option<usize>
    ensures { result ≡ position (λ frame. frame.id == id) frames.now }
{
    frames.iter().position(|frame| frame.id == id)
}

/// Takes out what is kept of the first frame of this number. It takes no memory.
pub(crate) fn take_frame(frames: &mut RoomList<FramePins>, id: u64) -> FramePins
    requires { IsTrue (list_any (λ frame. frame.id == id) frames.old.items) }
    ensures frame { find (λ frame. frame.id == id) frames.old.items ≡ Some result }
    ensures frames { frames.new.items ≡ without_first (λ frame. frame.id == id) frames.old.items }
    ensures room { frames.new.spare ≡ frames.old.spare + 1 }
{
    match place_of(frames.as_slice(), id) {
        Some(at) => frames.remove(at),
        None => unreachable!(),
    }
}
