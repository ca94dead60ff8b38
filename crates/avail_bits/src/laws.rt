//! What follows from the definitions.

ghost use Rattle.std.specs.Prelude.{◌≡◌, ◌<◌, ◌≤◌, ◌^◌, ℕ};
ghost use Rattle.avail_bits.specs.Morton.{interleaved2, interleaved3};

/// Nodes at different places have different Morton numbers.
pub fn places_have_their_own_numbers()
    ensures quadtree { (k x y v w : ℕ) → x < 2 ^ k → y < 2 ^ k → v < 2 ^ k → w < 2 ^ k
        → interleaved2 k x y ≡ interleaved2 k v w → (x ≡ v) × (y ≡ w) }
    ensures octree { (k x y z u v w : ℕ) → x < 2 ^ k → y < 2 ^ k → z < 2 ^ k
        → u < 2 ^ k → v < 2 ^ k → w < 2 ^ k
        → interleaved3 k x y z ≡ interleaved3 k u v w → (x ≡ u) × (y ≡ v) × (z ≡ w) }
{}

/// Digits above the highest that is 1 add nothing, so any number of digits that is enough for the
/// places gives the same Morton number.
pub fn further_digits_add_nothing()
    ensures quadtree { (k n x y : ℕ) → k ≤ n → x < 2 ^ k → y < 2 ^ k
        → interleaved2 n x y ≡ interleaved2 k x y }
    ensures octree { (k n x y z : ℕ) → k ≤ n → x < 2 ^ k → y < 2 ^ k → z < 2 ^ k
        → interleaved3 n x y z ≡ interleaved3 k x y z }
{}
