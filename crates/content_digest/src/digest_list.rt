//! The digests of many contents.

ghost use Rattle.std.specs.Prelude.{◌≡◌, [], map, IfOk, IsOk};
ghost use Rattle.sha2.specs.Sha256.{sha256};

use bytes::Bytes;
use lists::List;
use rayon::prelude::*;
use sha2::{Digest, Sha256};
use std::alloc::{AllocError, Global};
use std::thread::Threads;

/// SHA-256 digests, in order.
pub type DigestList = List<[u8; 32]>;

/// The SHA-256 digest (FIPS 180-4) of each, in order, from as many threads as there are processors.
/// Where there are none it takes no memory.
pub fn digests<R: Threads + Sync>(
    rt: &R,
    alloc: Global,
    list: &[Bytes],
) -> Result<DigestList, AllocError>
    ensures value { IfOk result (λ digests. digests ≡ map sha256 list.now) }
    ensures none { list.now ≡ [] → IsOk result }
{
    if list.is_empty() {
        return Ok(DigestList::new(alloc));
    }
    Ok(List::from_vec(digest_vec(rt, alloc, list)?))
}

/// The digests in a vector. A content may be long, so that each is a piece of work of its own.
fn digest_vec<R: Threads + Sync>(
    rt: &R,
    alloc: Global,
    list: &[Bytes],
) -> Result<Vec<[u8; 32]>, AllocError>
    ensures { IfOk result (λ digests. digests.items ≡ map sha256 list.now) }
{
    list.par_iter()
        .with_min_len(1)
        .map(
            |bytes: &Bytes| -> [u8; 32]
                ensures { result ≡ sha256 bytes.now }
            { Sha256::digest(bytes.as_slice()) },
        )
        .collect(rt, alloc)
}
