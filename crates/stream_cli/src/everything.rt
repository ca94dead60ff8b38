//! Holdings in which every content is there.

ghost use Rattle.stream_cli.specs.Awaited.{nothing_absent};

use cut_core::Holdings;
use tile_types::Text;

/// Holdings in which every content is there.
#[derive(Clone, Copy, Debug)]
pub struct EverythingThere;

impl Holdings for EverythingThere {
    ghost holdings = { λ _. nothing_absent };

    fn resident(&self, _address: &Text) -> bool {
        true
    }

    fn absent(&self, _address: &Text) -> bool {
        false
    }
}
