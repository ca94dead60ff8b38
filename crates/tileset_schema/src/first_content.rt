//! The first content of a tile, as it is kept.

ghost use Rattle.std.specs.Prelude.{◌≡◌, ◌∷◌, [], IfOk};
ghost use Rattle.tileset_schema.specs.FirstSeen.{first_in};
ghost use Rattle.tileset_schema.specs.Firsts.{IsFirst};

use crate::rest::ContentKind;
use std::alloc::{AllocError, Global};
use tile_types::Text;
use tile_uri::{Address, is_external};

/// The first content of a tile, where there is one.
#[derive(Drop)]
pub struct FirstContent {
    /// Its address, or an empty text.
    pub text: Text,
    pub kind: ContentKind,
}

impl FirstContent {
    /// No content: an empty text takes the place of the address.
    pub fn absent(alloc: Global) -> Result<FirstContent, AllocError>
        ensures value { IfOk result (λ first. first_in first ≡ []) }
        ensures is { IfOk result (λ first. IsFirst first.kind first.text) }
    {
        Ok(FirstContent {
            text: Text::new(alloc, "")?,
            kind: ContentKind::Absent,
        })
    }

    /// The content at an address, an external tileset or the tile's own.
    pub fn of(address: Address) -> FirstContent
        ensures value { first_in result ≡ address ∷ [] }
        ensures is { IsFirst result.kind result.text }
    {
        let external = is_external(&address);
        let text = address.into_text();
        if external {
            FirstContent {
                text,
                kind: ContentKind::External,
            }
        } else {
            FirstContent {
                text,
                kind: ContentKind::Own,
            }
        }
    }
}
