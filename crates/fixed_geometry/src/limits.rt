//! The sizes within which the geometry is proved, each in its unit.

/// The greatest size of a coordinate, in millimetres.
pub const COORDINATE_LIMIT: u64 = 1 << 36;

/// The greatest error, in micrometres.
pub const ERROR_LIMIT: u64 = 1 << 50;

/// The greatest distance of a point from a volume, in millimetres.
pub const DISTANCE_LIMIT: u64 = 1 << 40;

/// How many parts make 1 in a linear entry of a map.
pub const PARTS: u64 = 1_000_000_000;

/// The greatest size of a linear entry of a map, in 10^-9 parts: it stands for 2^20.
pub const LINEAR_LIMIT: u64 = (1 << 20) * PARTS;

/// The most places behind the point to which a decimal is read.
pub const PLACES_LIMIT: u8 = 9;

/// The greatest limit within which a decimal is read, in units of its last place.
pub const SCALED_LIMIT: u64 = 1 << 60;

/// The greatest size of a component of a vector that is multiplied or subtracted.
pub const COMPONENT_LIMIT: u64 = 1 << 61;

/// The greatest size of a number that is divided with rounding, or that divides.
pub const OPERAND_LIMIT: u128 = 1 << 125;
