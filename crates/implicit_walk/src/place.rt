//! Where a tile is.

ghost use Rattle.std.specs.Prelude.{◌≡◌, ◌≤◌, ◌<◌, ◌^◌};
ghost use Rattle.implicit_walk.specs.Places as places;
ghost use Rattle.implicit_walk.specs.Places.{root_place};

/// Where a tile of an implicit tileset is (OGC 22-025r4, "Implicit Tiling"): its level, from 0 at
/// the implicit root, and its place among the 2^level cells along each axis. In a quadtree `z` is
/// 0.
#[derive(Clone, Copy, Debug, PartialEq, Eq)]
pub struct Place {
    pub level: u8,
    pub x: u32,
    pub y: u32,
    pub z: u32,
}

impl Place {
    /// The implicit root's own place.
    #[inline]
    pub fn root() -> Place
        ensures { result ≡ root_place }
    {
        Place {
            level: 0,
            x: 0,
            y: 0,
            z: 0,
        }
    }

    /// The place so many levels above, whose cell holds this one's.
    #[inline]
    pub fn above(self, levels: u8) -> Place
        requires within { levels ≤ self.level }
        requires few { levels < 32 }
        ensures { result ≡ places.above levels self }
    {
        Place {
            level: self.level - levels,
            x: self.x >> levels,
            y: self.y >> levels,
            z: self.z >> levels,
        }
    }

    /// The child of a number below 8, in Morton order.
    #[inline]
    pub(crate) fn child(self, i: u32) -> Place
        requires level { self.level < 255 }
        requires x { self.x < 2 ^ 30 }
        requires y { self.y < 2 ^ 30 }
        requires z { self.z < 2 ^ 30 }
        requires number { i < 8 }
        ensures { result ≡ places.child self i }
    {
        Place {
            level: self.level + 1,
            x: 2 * self.x + i % 2,
            y: 2 * self.y + i / 2 % 2,
            z: 2 * self.z + i / 4,
        }
    }

    /// The place below the one that is so many levels above.
    #[inline]
    pub(crate) fn below(self, levels: u8) -> Place
        requires { levels < 32 }
        ensures { result ≡ places.below levels self }
    {
        let mask = (1 << levels) - 1;
        Place {
            level: levels,
            x: self.x & mask,
            y: self.y & mask,
            z: self.z & mask,
        }
    }
}
