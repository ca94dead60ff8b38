//! A plane that bounds a view.

use fixed_geometry::Point;

/// The plane `n . p + d = 0`. Its inner side is where `n . p + d >= 0`: `n` is a vector of any
/// length, and `d` is in millimetres times that length.
#[derive(Clone, Copy, Debug, PartialEq, Eq)]
pub struct Plane {
    pub n: Point,
    pub d: i64,
}
