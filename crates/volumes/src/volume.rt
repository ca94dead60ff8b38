//! The two forms of a bounding volume.

use fixed_geometry::Point;

/// A bounding volume, in millimetres (OGC 22-025r4, bounding volumes).
#[derive(Clone, Copy, Debug, PartialEq, Eq)]
pub enum Volume {
    /// A box: its centre and the vectors from there to the middle of a face, along each axis.
    Oriented { centre: Point, axes: [Point; 3] },
    /// A sphere.
    Ball { centre: Point, radius: i64 },
}
