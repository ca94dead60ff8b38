//! A tile as its document writes it.

ghost use Rattle.std.specs.Prelude.{◌≡◌, ◌≤◌, ◌<◌, [], true, length, option_map, slice_index_or};
ghost use Rattle.std.specs.Prelude.{IfSome};
ghost use Rattle.volumes.specs.Limits.{IsBoxInRange, IsInRange, error_limit};
ghost use Rattle.tile_uri.specs.Addresses as addresses;
ghost use Rattle.tileset_schema.specs.Firsts.{IsFirst};
ghost use Rattle.tileset_schema.specs.Rests as rests;
ghost use Rattle.tileset_schema.specs.RowBy.{row_by};
ghost use Rattle.tileset_schema.specs.Seen.{or_identity};

use crate::first_content::FirstContent;
use crate::implicit_part::ImplicitPart;
use crate::rest::{ContentKind, Rest};
use fixed_geometry::Affine;
use std::marker::Model;
use tile_types::{Refine, Text};
use tile_uri::{ADDRESS_LIMIT, is_external};
use volumes::Volume;

/// A tile as its document writes it (OGC 22-025r4, "Tiles"), in a list of all tiles in preorder.
/// What it says is its own, not yet under that of the tiles above. It takes 96 bytes, and memory
/// of its own only for an address of more than 30 bytes, a box that isn't along the axes of the
/// coordinates, a request volume, a transform, a second content, or an implicit part.
#[derive(Drop)]
pub struct Written {
    error: u64,
    /// The address of the first content, where there is one.
    first: Text,
    rest: Rest,
}

impl Model for Written {
    ghost use Rattle.tileset_schema.specs.Preorder.{Row};

    ghost Value = { Row };

    ghost use Rattle.tileset_schema.specs.Kept.{row_of, IsWritten};

    ghost view = { row_of };

    ghost invariant = { IsWritten };
}

impl Written {
    #[inline(always)]
    pub(crate) fn new(error: u64, first: FirstContent, rest: Rest) -> Written
        requires volume { IsInRange (rests.volume rest) }
        requires request { IfSome (rests.request rest) IsInRange }
        requires error { error ≤ error_limit }
        requires first { IsFirst first.kind first.text }
        requires kind { (rests.marks rest).content ≡ first.kind }
        requires boxed { IfSome (rests.implicit rest)
            (λ part. IsBoxInRange (rests.volume rest)) }
        ensures { result ≡ row_by error first.text rest }
    {
        Written {
            error,
            first: first.text,
            rest,
        }
    }

    /// The bounding volume, in millimetres.
    pub fn volume(&self) -> Volume
        ensures value { result ≡ self.now.parts.volume }
        ensures within { IsInRange self.now.parts.volume }
    {
        self.rest.volume()
    }

    /// The viewer request volume, in millimetres.
    pub fn request(&self) -> Option<&Volume>
        ensures value { option_map (λ v. v.now) result ≡ self.now.parts.request }
        ensures within { IfSome self.now.parts.request IsInRange }
    {
        self.rest.request()
    }

    /// The geometric error, in micrometres.
    pub fn error(&self) -> u64
        ensures value { result ≡ self.now.parts.error }
        ensures within { self.now.parts.error ≤ error_limit }
    {
        self.error
    }

    /// How the tile is refined, where it says so.
    pub fn refine(&self) -> Option<Refine>
        ensures { result ≡ self.now.parts.refine }
    {
        self.rest.marks().refine
    }

    /// The tile's own transform. None stands for the identity.
    pub fn transform(&self) -> Option<&Affine>
        ensures { or_identity (option_map (λ m. m.now) result) ≡ self.now.parts.transform }
    {
        self.rest.transform()
    }

    /// How many contents the tile has, those that are external tilesets among them.
    pub fn content_count(&self) -> usize
        ensures { result ≡ length self.now.parts.contents }
    {
        match self.rest.marks().content {
            ContentKind::Absent => 0,
            _ => 1 + self.rest.more().len(),
        }
    }

    /// The address of a content.
    pub fn content(&self, i: usize) -> &Text
        requires { i < length self.now.parts.contents }
        ensures value { result.now ≡ slice_index_or self.now.parts.contents i [] }
        ensures address { addresses.is_address result.now ≡ true }
        ensures short { length result.now ≤ ADDRESS_LIMIT }
    {
        if i == 0 {
            return &self.first;
        }
        self.rest.more()[i - 1].text()
    }

    /// Whether a content is an external tileset (OGC 22-025r4, "External tilesets").
    pub fn is_external(&self, i: usize) -> bool
        requires { i < length self.now.parts.contents }
        ensures { result ≡ addresses.is_external (slice_index_or self.now.parts.contents i []) }
    {
        if i == 0 {
            return matches!(self.rest.marks().content, ContentKind::External);
        }
        is_external(&self.rest.more()[i - 1])
    }

    /// What the tile says of the tiles below it, where it is an implicit root (OGC 22-025r4,
    /// "Implicit Tiling"). Then its volume is a box.
    pub fn implicit(&self) -> Option<&ImplicitPart>
        ensures value { option_map (λ p. p.now) result ≡ self.now.parts.implicit }
        ensures boxed { IfSome self.now.parts.implicit (λ p. IsBoxInRange self.now.parts.volume) }
    {
        self.rest.implicit()
    }

    /// How many tiles the tree of the tile has, the tile itself counted. Its first child is the
    /// next tile of the list, and a child's next sibling stands behind all tiles of that child.
    pub fn size(&self) -> u32
        ensures { result ≡ self.now.size }
    {
        self.rest.size()
    }

    pub(crate) fn set_size(&mut self, size: u32)
        ensures parts { self.new.parts ≡ self.old.parts }
        ensures size { self.new.size ≡ size }
    {
        self.rest.set_size(size);
    }
}
