//! Digests of the messages that FIPS 180-4 has as examples and others, and what no clause says.

use crate::{Content, ContentFacts, digests};
use bytes::Bytes;
use lists::List;
use std::test::Fail;

/// Of `abc`.
static ABC: [u8; 32] = [
    0xba, 0x78, 0x16, 0xbf, 0x8f, 0x01, 0xcf, 0xea, 0x41, 0x41, 0x40, 0xde, 0x5d, 0xae, 0x22, 0x23,
    0xb0, 0x03, 0x61, 0xa3, 0x96, 0x17, 0x7a, 0x9c, 0xb4, 0x10, 0xff, 0x61, 0xf2, 0x00, 0x15, 0xad,
];

/// Of no byte.
static NO_BYTE: [u8; 32] = [
    0xe3, 0xb0, 0xc4, 0x42, 0x98, 0xfc, 0x1c, 0x14, 0x9a, 0xfb, 0xf4, 0xc8, 0x99, 0x6f, 0xb9, 0x24,
    0x27, 0xae, 0x41, 0xe4, 0x64, 0x9b, 0x93, 0x4c, 0xa4, 0x95, 0x99, 0x1b, 0x78, 0x52, 0xb8, 0x55,
];

/// Of `a`.
static ONE_BYTE: [u8; 32] = [
    0xca, 0x97, 0x81, 0x12, 0xca, 0x1b, 0xbd, 0xca, 0xfa, 0xc2, 0x31, 0xb3, 0x9a, 0x23, 0xdc, 0x4d,
    0xa7, 0x86, 0xef, 0xf8, 0x14, 0x7c, 0x4e, 0x72, 0xb9, 0x80, 0x77, 0x85, 0xaf, 0xee, 0x48, 0xbb,
];

/// Of the digests of 1 to 5,000 zero bytes one behind the other, by another program.
static OF_DIGESTS: [u8; 32] = [
    0xe2, 0xe3, 0x43, 0xf8, 0x76, 0x22, 0x94, 0x8a, 0x31, 0x91, 0x58, 0x77, 0x4b, 0x66, 0x4f, 0xc3,
    0x30, 0xbf, 0x34, 0x94, 0x75, 0x70, 0x90, 0x8a, 0x04, 0xce, 0xda, 0x27, 0x19, 0x87, 0xf0, 0x46,
];

static ZEROS: [u8; 5000] = [0; 5000];

#[test]
fn digests_in_order(rt: HostRuntime) -> Result<(), Fail> {
    let alloc = rt.alloc();
    let list = [
        Bytes::copy_from_slice(alloc, b"abc")?,
        Bytes::new(),
        Bytes::copy_from_slice(alloc, b"a")?,
    ];
    let found = digests(&rt, alloc, &list)?;
    assert_eq!(rt; found.as_slice(), [ABC, NO_BYTE, ONE_BYTE].as_slice());
    assert!(rt; digests(&rt, alloc, &[])?.is_empty());
    Ok(())
}

/// The digests of 5,000 contents, of which each is one byte longer than the one before.
#[test]
fn many_digests(rt: HostRuntime) -> Result<(), Fail> {
    let alloc = rt.alloc();
    let mut list = List::new(alloc);
    for length in 1..=ZEROS.len() {
        list.push(Bytes::copy_from_slice(alloc, &ZEROS[..length])?)?;
    }
    let mut joined: List<u8> = List::new(alloc);
    for digest in &digests(&rt, alloc, list.as_slice())? {
        joined.append(List::from_slice(alloc, digest)?)?;
    }
    let bytes = Bytes::copy_from_slice(alloc, joined.as_slice())?;
    assert_eq!(rt; bytes.len(), 160_000);
    assert_eq!(rt; *Content::new(bytes).digest(), OF_DIGESTS);
    Ok(())
}

#[test]
fn what_is_kept_of_a_content(rt: HostRuntime) -> Result<(), Fail> {
    let facts = ContentFacts {
        length: 3,
        digest: ABC,
    };
    assert_eq!(rt; ContentFacts::of(b"abc"), facts);
    Ok(())
}

#[test]
fn a_content_is_shared(rt: HostRuntime) -> Result<(), Fail> {
    let content = Content::new(Bytes::copy_from_slice(rt.alloc(), b"abc")?);
    assert_eq!(rt; *content.digest(), ABC);
    assert!(rt; content.bytes().is_unique());
    let shared = content.share()?;
    assert_eq!(rt; *shared.digest(), ABC);
    assert_eq!(rt; shared.bytes().as_slice(), b"abc".as_slice());
    // Both own the one block.
    assert!(rt; !content.bytes().is_unique());
    drop(content);
    assert!(rt; shared.bytes().is_unique());
    Ok(())
}
