//! The trait that tells which contents are awaited.

ghost use Rattle.std.specs.Prelude.{◌≡◌, ℕ, Bool, List};

use tile_types::Text;

/// Which contents are awaited: those that are still missing, or of these the ones that may be
/// loaded.
pub trait Awaited {
    ghost awaited: { Self → List ℕ → Bool };

    /// Whether the content at this address is awaited.
    fn is_awaited(&self, address: &Text) -> bool
        ensures { result ≡ awaited self.now address.now };
}

/// No content is awaited.
#[derive(Drop)]
pub struct NoneAwaited;

impl Awaited for NoneAwaited {
    ghost use Rattle.std.specs.Prelude.{false};

    ghost awaited = { λ _ _. false };

    fn is_awaited(&self, _address: &Text) -> bool {
        false
    }
}
