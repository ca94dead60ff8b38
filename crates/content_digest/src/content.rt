//! A content with its digest.

ghost use Rattle.std.specs.Prelude.{◌≡◌, [], IfOk, IsOk};
ghost use Rattle.sha2.specs.Sha256.{sha256};

use bytes::Bytes;
use sha2::{Digest, Sha256};
use std::alloc::AllocError;
use std::marker::Model;

/// The bytes of a tile's content, which several owners may share, with their SHA-256 digest (FIPS
/// 180-4), which is computed once. Contracts see a content as its bytes.
#[derive(Debug, Drop)]
pub struct Content {
    bytes: Bytes,
    digest: [u8; 32],
}

impl Model for Content {
    ghost use Rattle.std.specs.Prelude.{◌≡◌, ℕ, List};
    ghost use Rattle.sha2.specs.Sha256.{sha256};

    ghost Value = { List ℕ };

    ghost view = { λ content. content.bytes };

    ghost invariant = { λ content. content.digest ≡ sha256 content.bytes };
}

impl Content {
    /// The content of these bytes. Takes no memory.
    pub fn new(bytes: Bytes) -> Content
        ensures { result ≡ bytes }
    {
        let digest = Sha256::digest(bytes.as_slice());
        Content { bytes, digest }
    }

    /// The bytes.
    pub fn bytes(&self) -> &Bytes
        ensures { result.now ≡ self.now }
    {
        &self.bytes
    }

    /// The SHA-256 digest of the bytes.
    pub fn digest(&self) -> &[u8; 32]
        ensures { result.now ≡ sha256 self.now }
    {
        &self.digest
    }

    /// The same content for one more owner, whose bytes aren't copied. Refused where there are as
    /// many owners as can be counted.
    pub fn share(&self) -> Result<Content, AllocError>
        ensures value { IfOk result (λ content. content ≡ self.now) }
        ensures empty { self.now ≡ [] → IsOk result }
    {
        Ok(Content {
            bytes: self.bytes.slice(..)?,
            digest: self.digest,
        })
    }
}
