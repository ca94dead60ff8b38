//! Square roots of whole numbers.

ghost use Rattle.std.specs.Prelude.{◌≡◌, ◌≤◌, ◌<◌, ◌↔◌, ◌+◌, ◌*◌, ℕ, IsTrue};
ghost use Rattle.fixed_geometry.specs.Root.{root_limit, floor_root, ceiling_root};

use std::num::{nearest_u64_to_f64, saturating_f64_to_u64};

/// 2^64, which is a float exactly.
const TWO_TO_64: f64 = 18446744073709551616.0;

/// The greatest whole number whose square is at most `n`.
pub fn root_floor(n: u128) -> u128
    ensures square { result * result ≤ n }
    ensures next_square { n < (result + 1) * (result + 1) }
    ensures value { result ≡ floor_root n }
    ensures bound { result < root_limit }
{
    // Below 2^104 the root of the nearest float is this root, or one more. Nothing rests on it,
    // since it is tested.
    let high = nearest_u64_to_f64((n >> 64) as u64);
    let low = nearest_u64_to_f64((n & u128::from(u64::MAX)) as u64);
    let near = saturating_f64_to_u64((high * TWO_TO_64 + low).sqrt());
    if is_root(near, n) {
        return u128::from(near);
    }
    let below = near.saturating_sub(1);
    if is_root(below, n) {
        return u128::from(below);
    }
    n.isqrt()
}

/// The least whole number whose square is at least `n`.
pub fn root_ceil(n: u128) -> u128
    ensures square { n ≤ result * result }
    ensures least { (m : ℕ) → n ≤ m * m → result ≤ m }
    ensures value { result ≡ ceiling_root n }
    ensures bound { result ≤ root_limit }
{
    let root = root_floor(n);
    if root * root == n { root } else { root + 1 }
}

/// Whether `root` is the greatest whole number whose square is at most `n`.
fn is_root(root: u64, n: u128) -> bool
    ensures { IsTrue result ↔ ((root * root ≤ n) × (n < (root + 1) * (root + 1))) }
{
    let root = u128::from(root);
    let square = root * root;
    square <= n && n - square <= 2 * root
}
