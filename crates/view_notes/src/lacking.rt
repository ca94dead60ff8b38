//! The trait that tells which noted nodes lack a content.

ghost use Rattle.std.specs.Prelude.{◌≡◌, ℕ, Bool};

/// Which noted nodes have a content that is still to be loaded.
pub trait Lacking {
    ghost lacking: { Self → ℕ → Bool };

    /// Whether the node of this number has one.
    fn is_lacking(&self, number: u32) -> bool
        ensures { result ≡ lacking self.now number };
}
