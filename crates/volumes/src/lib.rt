//! Bounding volumes in whole millimetres: oriented boxes and spheres. How far a point is outside
//! one, on which side of a plane it lies, how a map moves it, and the cells that it is divided
//! into.
#![tactic(auto)]

mod cells;
mod distance;
pub mod laws;
mod limits;
mod moves;
mod plane;
mod planes;
mod shifts;
#[cfg(test)]
mod tests;
mod volume;

pub use limits::{CELL_LIMIT, LEVEL_LIMIT, NORMAL_LIMIT, OFFSET_LIMIT};
pub use moves::moved_error;
pub use plane::Plane;
pub use volume::Volume;
