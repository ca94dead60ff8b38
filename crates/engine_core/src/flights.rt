//! The keys that are being fetched.

ghost use Rattle.std.specs.Prelude.{◌≡◌, ◌+◌, IsTrue, position};
ghost use Rattle.std.specs.List.{list_any};
ghost use Rattle.engine_state.specs.After.{without_first};
ghost use Rattle.engine_state.specs.Loading.{is_flight_of};

use engine_state::Flight;
use lists::RoomList;
use tile_types::Key;

/// Where the flight of a key for a pass stands.
fn place_of(flying: &[Flight], pass: u32, key: &Key) -> Option<usize>
    ensures { result ≡ position (is_flight_of pass key.now) flying.now }
{
    flying
        .iter()
        .position(|flight| flight.key == *key && flight.pass == pass)
}

/// Ends the flight of a key for a pass, and answers the key that was kept for it. It takes no memory.
pub(crate) fn end_flight(flying: &mut RoomList<Flight>, pass: u32, key: &Key) -> Key
    requires { IsTrue (list_any (is_flight_of pass key.now) flying.old.items) }
    ensures key { result ≡ key.now }
    ensures flying { flying.new.items ≡ without_first (is_flight_of pass key.now) flying.old.items }
    ensures room { flying.new.spare ≡ flying.old.spare + 1 }
{
    match place_of(flying.as_slice(), pass, key) {
        Some(at) => flying.remove(at).key,
        None => unreachable!(),
    }
}
