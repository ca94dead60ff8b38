//! The error test: whether a tile of a volume and an error is too coarse for a view, and whether
//! the view's planes leave it out of sight.
#![tactic(auto)]

mod culling;
mod limits;
mod screen_error;
#[cfg(test)]
mod tests;
mod view;

pub use culling::culled;
pub use limits::{ALLOWED_LIMIT, HEIGHT_LIMIT, PLANE_LIMIT, TANGENT_LIMIT};
pub use screen_error::wants;
pub use view::{Field, View, ViewError};
