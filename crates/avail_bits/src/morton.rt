//! Morton numbers: the binary digits of places, taken in turn (OGC 22-025r4, "Morton Order").

ghost use Rattle.std.specs.Prelude.{◌≡◌, ◌<◌, ◌^◌};
ghost use Rattle.avail_bits.specs.Morton.{interleaved2, interleaved3};

use crate::gather::{gather2, gather3};
use crate::spread::{spread2, spread3};

/// How many binary digits a place may have.
pub const MORTON_DIGITS: u32 = 21;

/// The Morton number of a node of a quadtree at its places: from the lowest, a binary digit of `x`
/// and then one of `y`.
pub fn morton2(x: u32, y: u32) -> u64
    requires x_within { x < 2 ^ MORTON_DIGITS }
    requires y_within { y < 2 ^ MORTON_DIGITS }
    ensures value { result ≡ interleaved2 MORTON_DIGITS x y }
    ensures within { result < 2 ^ 42 }
{
    spread2(x) + (spread2(y) << 1)
}

/// The Morton number of a node of an octree at its places: from the lowest, a binary digit of `x`,
/// then one of `y` and then one of `z`.
pub fn morton3(x: u32, y: u32, z: u32) -> u64
    requires x_within { x < 2 ^ MORTON_DIGITS }
    requires y_within { y < 2 ^ MORTON_DIGITS }
    requires z_within { z < 2 ^ MORTON_DIGITS }
    ensures value { result ≡ interleaved3 MORTON_DIGITS x y z }
    ensures within { result < 2 ^ 63 }
{
    spread3(x) + (spread3(y) << 1) + (spread3(z) << 2)
}

/// The places `x` and `y` whose Morton number this is.
pub fn unmorton2(m: u64) -> (u32, u32)
    requires { m < 2 ^ 42 }
    ensures x_within { result.0 < 2 ^ MORTON_DIGITS }
    ensures y_within { result.1 < 2 ^ MORTON_DIGITS }
    ensures inverse { interleaved2 MORTON_DIGITS result.0 result.1 ≡ m }
{
    (gather2(m), gather2(m >> 1))
}

/// The places `x`, `y` and `z` whose Morton number this is.
pub fn unmorton3(m: u64) -> (u32, u32, u32)
    requires { m < 2 ^ 63 }
    ensures x_within { result.0 < 2 ^ MORTON_DIGITS }
    ensures y_within { result.1 < 2 ^ MORTON_DIGITS }
    ensures z_within { result.2 < 2 ^ MORTON_DIGITS }
    ensures inverse { interleaved3 MORTON_DIGITS result.0 result.1 result.2 ≡ m }
{
    (gather3(m), gather3(m >> 1), gather3(m >> 2))
}
