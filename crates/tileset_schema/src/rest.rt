//! What a tile says beside its error and its first content: little but its volume for most tiles.

ghost use Rattle.std.specs.Prelude.{◌≡◌, IfOk, IfSome, option_map};
ghost use Rattle.tileset_schema.specs.Aligned.{aligned_axes};
ghost use Rattle.tileset_schema.specs.Rests as rests;
ghost use Rattle.tileset_schema.specs.Seen.{part_seen};
ghost use Rattle.volumes.specs.declared.volume.Volume.TheVariants.{Oriented as oriented};

use crate::implicit_part::ImplicitPart;
use fixed_geometry::{Affine, Point};
use std::alloc::{AllocError, Global};
use tile_types::Refine;
use tile_uri::Address;
use volumes::Volume;

/// Whether there is a first content, and what it is.
#[derive(Clone, Copy)]
pub enum ContentKind {
    Absent,
    Own,
    /// An external tileset (OGC 22-025r4, "External tilesets").
    External,
}

/// What takes a byte or two.
#[derive(Clone, Copy)]
pub struct Marks {
    pub refine: Option<Refine>,
    pub content: ContentKind,
}

/// What few tiles say, and the volume of a tile that says any of it.
#[derive(Drop)]
pub struct Rare {
    /// The bounding volume, in millimetres.
    pub volume: Volume,
    /// The viewer request volume, in millimetres.
    pub request: Option<Volume>,
    /// The tile's own transform.
    pub transform: Option<Affine>,
    /// The contents from the second on.
    pub more: Vec<Address>,
    /// What an implicit root says of the tiles below it.
    pub implicit: Option<Box<ImplicitPart>>,
}

/// The marks of a tile, how many tiles its tree has, its volume in millimetres, and what few tiles
/// say, where it says any of it. A sphere and a box along the axes of the coordinates lie in the
/// value itself. The small fields stand in the room behind the tag of the enum.
#[derive(Drop)]
pub enum Rest {
    /// In a sphere.
    Ball {
        marks: Marks,
        size: u32,
        centre: Point,
        radius: i64,
    },
    /// In a box whose half axes are these lengths along x, y and z, in this order.
    Aligned {
        marks: Marks,
        size: u32,
        centre: Point,
        lengths: Point,
    },
    /// In another box.
    Oriented {
        marks: Marks,
        size: u32,
        volume: Box<Volume>,
    },
    Rare {
        marks: Marks,
        size: u32,
        rare: Box<Rare>,
    },
}

/// The lengths of three half axes along x, y and z, where each is along its own.
#[inline(always)]
fn aligned_lengths(axes: &[Point; 3]) -> Option<Point>
    ensures { IfSome result (λ lengths. axes.now ≡ aligned_axes lengths) }
{
    let [a, b, c] = *axes;
    if a.y != 0 || a.z != 0 {
        return None;
    }
    if b.x != 0 || b.z != 0 {
        return None;
    }
    if c.x != 0 || c.y != 0 {
        return None;
    }
    Some(Point {
        x: a.x,
        y: b.y,
        z: c.z,
    })
}

/// The half axes of these lengths along x, y and z.
fn half_axes(lengths: Point) -> [Point; 3]
    ensures { result ≡ aligned_axes lengths }
{
    let Point { x, y, z } = lengths;
    [
        Point { x, y: 0, z: 0 },
        Point { x: 0, y, z: 0 },
        Point { x: 0, y: 0, z },
    ]
}

impl Rest {
    /// The rest of a tile without children in a box, which says nothing rare. It takes memory where
    /// the box isn't along the axes of the coordinates.
    #[inline(always)]
    fn common_box(
        alloc: Global,
        marks: Marks,
        centre: Point,
        axes: [Point; 3],
    ) -> Result<Rest, AllocError>
        ensures { IfOk result (rests.IsCommon marks (oriented centre axes)) }
    {
        match aligned_lengths(&axes) {
            Some(lengths) => Ok(Rest::Aligned {
                marks,
                size: 1,
                centre,
                lengths,
            }),
            None => Ok(Rest::Oriented {
                marks,
                size: 1,
                volume: Box::new(alloc, Volume::Oriented { centre, axes })?,
            }),
        }
    }

    /// The rest of a tile without children that says nothing rare.
    #[inline(always)]
    pub fn common(alloc: Global, marks: Marks, volume: Volume) -> Result<Rest, AllocError>
        ensures { IfOk result (rests.IsCommon marks volume) }
    {
        match volume {
            Volume::Ball { centre, radius } => Ok(Rest::Ball {
                marks,
                size: 1,
                centre,
                radius,
            }),
            Volume::Oriented { centre, axes } => Rest::common_box(alloc, marks, centre, axes),
        }
    }

    /// The rest of a tile without children.
    pub fn new(
        alloc: Global,
        marks: Marks,
        volume: Volume,
        request: Option<Volume>,
        transform: Option<Affine>,
        more: Vec<Address>,
        implicit: Option<Box<ImplicitPart>>,
    ) -> Result<Rest, AllocError>
        ensures marks { IfOk result (λ r. rests.marks r ≡ marks) }
        ensures size { IfOk result (λ r. rests.size r ≡ 1) }
        ensures volume { IfOk result (λ r. rests.volume r ≡ volume) }
        ensures request { IfOk result (λ r. rests.request r ≡ request) }
        ensures transform { IfOk result (λ r. rests.transform r ≡ transform) }
        ensures more { IfOk result (λ r. rests.more r ≡ more.items) }
        ensures implicit { IfOk result (λ r. rests.implicit r ≡ part_seen implicit) }
    {
        if request.is_none() && transform.is_none() && more.is_empty() && implicit.is_none() {
            return Rest::common(alloc, marks, volume);
        }
        let rare = Box::new(
            alloc,
            Rare {
                volume,
                request,
                transform,
                more,
                implicit,
            },
        )?;
        Ok(Rest::Rare {
            marks,
            size: 1,
            rare,
        })
    }

    /// Its refinement and the kind of its first content.
    pub fn marks(&self) -> Marks
        ensures { result ≡ rests.marks self.now }
    {
        match self {
            Rest::Ball { marks, .. } => *marks,
            Rest::Aligned { marks, .. } => *marks,
            Rest::Oriented { marks, .. } => *marks,
            Rest::Rare { marks, .. } => *marks,
        }
    }

    /// How many tiles the tree of the tile has.
    pub fn size(&self) -> u32
        ensures { result ≡ rests.size self.now }
    {
        match self {
            Rest::Ball { size, .. } => *size,
            Rest::Aligned { size, .. } => *size,
            Rest::Oriented { size, .. } => *size,
            Rest::Rare { size, .. } => *size,
        }
    }

    /// Notes how many tiles its tree has, once all of them are read.
    pub fn set_size(&mut self, count: u32)
        ensures { self.new ≡ rests.with_size self.old count }
    {
        match self {
            Rest::Ball { size, .. } => *size = count,
            Rest::Aligned { size, .. } => *size = count,
            Rest::Oriented { size, .. } => *size = count,
            Rest::Rare { size, .. } => *size = count,
        }
    }

    /// The bounding volume, in millimetres.
    pub fn volume(&self) -> Volume
        ensures { result ≡ rests.volume self.now }
    {
        match self {
            Rest::Ball { centre, radius, .. } => Volume::Ball {
                centre: *centre,
                radius: *radius,
            },
            Rest::Aligned {
                centre,
                lengths,
                ..
            } => Volume::Oriented {
                centre: *centre,
                axes: half_axes(*lengths),
            },
            Rest::Oriented { volume, .. } => **volume,
            Rest::Rare { rare, .. } => rare.volume,
        }
    }

    /// The viewer request volume, where it has one, in millimetres.
    pub fn request(&self) -> Option<&Volume>
        ensures { option_map (λ v. v.now) result ≡ rests.request self.now }
    {
        match self {
            Rest::Rare { rare, .. } => rare.request.as_ref(),
            _ => None,
        }
    }

    /// Its own transform, where it has one.
    pub fn transform(&self) -> Option<&Affine>
        ensures { option_map (λ m. m.now) result ≡ rests.transform self.now }
    {
        match self {
            Rest::Rare { rare, .. } => rare.transform.as_ref(),
            _ => None,
        }
    }

    /// The contents from the second on.
    pub fn more(&self) -> &[Address]
        ensures { result.now ≡ rests.more self.now }
    {
        match self {
            Rest::Rare { rare, .. } => rare.more.as_slice(),
            _ => &[],
        }
    }

    /// What an implicit root says of the tiles below it.
    pub fn implicit(&self) -> Option<&ImplicitPart>
        ensures { option_map (λ p. p.now) result ≡ rests.implicit self.now }
    {
        match self {
            Rest::Rare { rare, .. } => rare.implicit.as_deref(),
            _ => None,
        }
    }
}
