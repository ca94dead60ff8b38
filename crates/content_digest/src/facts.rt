//! What is kept of a content without its bytes.

ghost use Rattle.std.specs.Prelude.{◌≡◌};
ghost use Rattle.content_digest.specs.Facts.{facts_of};

use sha2::{Digest, Sha256};

/// What is kept of a content once its bytes are dropped.
#[derive(Clone, Copy, Debug, PartialEq, Eq)]
pub struct ContentFacts {
    /// How many bytes there are.
    pub length: u64,
    /// The SHA-256 digest of the bytes (FIPS 180-4).
    pub digest: [u8; 32],
}

impl ContentFacts {
    /// The length and the digest of these bytes. Takes no memory.
    pub fn of(bytes: &[u8]) -> ContentFacts
        ensures { result ≡ facts_of bytes.now }
    {
        ContentFacts {
            length: bytes.len() as u64,
            digest: Sha256::digest(bytes),
        }
    }
}
