//! The root of an implicit tileset, and what it says of each place below it.

ghost use Rattle.std.specs.Prelude.{◌≡◌, ◌≤◌, ◌<◌, ◌^◌, ◌↔◌, All, IfOk, IsTrue};
ghost use Rattle.volumes.specs.Limits.{IsBoxInRange, error_limit};
ghost use Rattle.implicit_walk.specs.Places as places;
ghost use Rattle.implicit_walk.specs.Places.{IsChild, IsPlace};
ghost use Rattle.implicit_walk.specs.Roots as roots;
ghost use Rattle.implicit_walk.specs.Roots.{IsRoot, subtree_key};

use crate::numbers::local_level;
use crate::place::Place;
use crate::place_row::PlaceRow;
use std::alloc::{AllocError, Global};
use std::marker::Model;
use tile_types::{Key, Kind};
use tile_uri::{Address, Base, Template, UriError};
use tileset_schema::ImplicitPart;
use volumes::Volume;

/// A tile that stands for an implicit tileset (OGC 22-025r4, "Implicit Root Tile"): its implicit
/// part, the address of its document, and its box and error under the transforms above it. It
/// borrows what the document keeps, so making one takes no memory.
#[derive(Drop)]
pub struct ImplicitRoot<'a> {
    part: &'a ImplicitPart,
    base: &'a Base,
    volume: Volume,
    error: u64,
}

impl<'a> Model for ImplicitRoot<'a> {
    ghost use Rattle.implicit_walk.specs.Roots.{RootParts, IsRoot};

    ghost Value = { RootParts };

    ghost view = { λ r. record {
      part = r.part.now;
      base = r.base.now;
      volume = r.volume;
      error = r.error;
    } };

    ghost invariant = { λ r. IsRoot (record {
      part = r.part.now;
      base = r.base.now;
      volume = r.volume;
      error = r.error;
    }) };
}

impl<'a> ImplicitRoot<'a> {
    /// The root with this implicit part in the document at `base`, of this box, in millimetres, and
    /// this error, in micrometres, both moved.
    pub fn new(
        part: &'a ImplicitPart,
        base: &'a Base,
        volume: Volume,
        error: u64,
    ) -> ImplicitRoot<'a>
        requires volume { IsBoxInRange volume }
        requires error { error ≤ error_limit }
        ensures part { result.part ≡ part.now }
        ensures base { result.base ≡ base.now }
        ensures volume { result.volume ≡ volume }
        ensures error { result.error ≡ error }
    {
        // These say how many levels and contents there may be.
        let _levels = (part.subtree_levels(), part.available_levels());
        let _contents = part.contents();
        ImplicitRoot {
            part,
            base,
            volume,
            error,
        }
    }

    /// The implicit part.
    #[inline]
    pub fn part(&self) -> &'a ImplicitPart
        ensures value { result.now ≡ self.now.part }
        ensures within { IsRoot self.now }
    {
        self.part
    }

    /// Whether there is such a place: its level is available, and has a cell there.
    pub fn has_place(&self, at: Place) -> bool
        ensures { IsTrue result ↔ IsPlace self.now.part at }
    {
        let part = self.part;
        let depth = if part.octree() { at.level } else { 0 };
        at.level < part.available_levels()
            && is_cell(at.x, at.level)
            && is_cell(at.y, at.level)
            && is_cell(at.z, depth)
    }

    /// The address that a template names at a place, if it names one.
    pub(crate) fn address_at(
        &self,
        alloc: Global,
        template: &Template,
        at: Place,
    ) -> Result<Option<Address>, AllocError>
        ensures { IfOk result (λ address.
            address ≡ roots.address_at self.now template.now at) }
    {
        match self
            .base
            .resolve_filled(alloc, template, at.level, at.x, at.y, at.z)
        {
            Ok(address) => Ok(Some(address)),
            Err(UriError::OutOfMemory) => Err(AllocError),
            Err(_) => Ok(None),
        }
    }
}

/// Whether so many levels below the root there is such a cell along an axis.
#[tactic(auto, using(std::proofs::lemmas::Nat::one_shl))]
fn is_cell(place: u32, levels: u8) -> bool
    requires { levels < 32 }
    ensures { IsTrue result ↔ (place < 2 ^ levels) }
{
    place < 1 << levels
}

/// The places of a tile's children, in Morton order: four in a quadtree, eight in an octree, and
/// none on the last available level. It takes no memory.
// Where it is inlined, each place of a row is moved once more.
#[inline(never)]
pub fn child_places(root: &ImplicitRoot, at: Place) -> PlaceRow
    requires { IsPlace root.now.part at }
    ensures value { result ≡ places.child_places root.now.part at }
    ensures children { All (IsChild root.now.part at) result }
{
    let part = root.part();
    if part.available_levels() <= at.level + 1 {
        return PlaceRow::empty();
    }
    if part.octree() {
        PlaceRow::octants(at)
    } else {
        PlaceRow::quadrants(at)
    }
}

/// The box of a tile: a cell of the root's box (OGC 22-025r4, "Subdivision Schemes"). It takes no
/// memory.
pub fn volume_at(root: &ImplicitRoot, at: Place) -> Volume
    requires { IsPlace root.now.part at }
    ensures value { result ≡ roots.volume_at root.now at }
    ensures within { IsBoxInRange result }
{
    if root.part().octree() {
        root.volume.split_oct(at.level, at.x, at.y, at.z)
    } else {
        root.volume.split_quad(at.level, at.x, at.y)
    }
}

/// The geometric error of a tile, in micrometres: that of the root, halved for each level (OGC
/// 22-025r4, "Subdivision Schemes"). It takes no memory.
pub fn error_at(root: &ImplicitRoot, at: Place) -> u64
    requires { IsPlace root.now.part at }
    ensures value { result ≡ roots.error_at root.now at }
    ensures within { result ≤ error_limit }
{
    root.error >> at.level
}

/// The key of the subtree that a tile is in (OGC 22-025r4, "Subtrees"). None exactly where the
/// filled template names no address.
pub fn subtree_of(alloc: Global, root: &ImplicitRoot, at: Place) -> Result<Option<Key>, AllocError>
    requires { IsPlace root.now.part at }
    ensures { IfOk result (λ key. key ≡ subtree_key root.now at) }
{
    let part = root.part();
    let subtree_root = at.above(local_level(root, at));
    match root.address_at(alloc, part.subtrees(), subtree_root)? {
        Some(address) => Ok(Some(Key {
            kind: Kind::Subtree {
                octree: part.octree(),
                levels: part.subtree_levels(),
                contents: part.contents().len() as u32,
            },
            address: address.into_text(),
        })),
        None => Ok(None),
    }
}
