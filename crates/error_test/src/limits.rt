//! The limits of the numbers and planes of a view. Each number is 1 to its limit.

/// The greatest height of the screen, in pixels.
pub const HEIGHT_LIMIT: u32 = 1 << 16;

/// The greatest number on either side of the tangent's fraction.
pub const TANGENT_LIMIT: u32 = 1 << 20;

/// The greatest error that a view allows, in sixteenths of a pixel.
pub const ALLOWED_LIMIT: u32 = 1 << 20;

/// The most planes that bound a view.
pub const PLANE_LIMIT: usize = 16;
