//! The trait that tells which contents are to be kept.

ghost use Rattle.std.specs.Prelude.{◌≡◌, ℕ, Bool, List};

use tile_types::Text;

/// What tells which contents are to be kept, as those that views keep.
pub trait Keeping {
    ghost keeps: { Self → List ℕ → Bool };

    /// Whether the content at this address is to be kept. It takes no memory.
    fn keeps(&self, address: &Text) -> bool
        ensures { result ≡ keeps self.now address.now };
}
