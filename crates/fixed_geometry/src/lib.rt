//! Whole-number geometry: decimals in fixed places, rounded quotients, square roots, points and
//! affine maps.
#![tactic(auto)]

mod affine;
mod decimal;
mod laws;
mod limits;
mod point;
mod quotient;
mod roots;
mod sixteen;
#[cfg(test)]
mod tests;

pub use affine::Affine;
pub use decimal::{OutOfRange, scaled, scaled_clamped};
pub use laws::{decimal_follows_spelling, identity_is_neutral, identity_moves_nothing};
pub use limits::{
    COMPONENT_LIMIT, COORDINATE_LIMIT, DISTANCE_LIMIT, ERROR_LIMIT, LINEAR_LIMIT, OPERAND_LIMIT,
    PARTS, PLACES_LIMIT, SCALED_LIMIT,
};
pub use point::{Point, transposed};
pub use quotient::{clamp, half, up};
pub use roots::{root_ceil, root_floor};
pub use sixteen::{AffineError, Sixteen};
