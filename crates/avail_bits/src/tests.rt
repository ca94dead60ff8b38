//! What no clause says of bits and Morton numbers.

ghost use Rattle.std.specs.Prelude.{◌≡◌, ◌<◌};

use super::*;
use bytes::Bytes;
use std::alloc::Global;
use std::marker::Brand;
use std::sync::ledger::{Blank, Ledger};
use tile_types::Steps;

/// Places of a quadtree and their Morton numbers, by hand from the binary digits.
static QUADTREE: [(u32, u32, u64); 7] = [
    (0, 0, 0),
    (1, 0, 1),
    (0, 1, 2),
    (3, 5, 39),
    (0x10_0000, 0, 0x100_0000_0000),
    (0, 0x10_0000, 0x200_0000_0000),
    (0x1F_FFFF, 0x1F_FFFF, 0x3FF_FFFF_FFFF),
];

/// Places of an octree and their Morton numbers, by hand from the binary digits.
static OCTREE: [(u32, u32, u32, u64); 6] = [
    (0, 0, 0, 0),
    (1, 0, 0, 1),
    (0, 1, 0, 2),
    (0, 0, 1, 4),
    (1, 2, 3, 53),
    (0x1F_FFFF, 0x1F_FFFF, 0x1F_FFFF, 0x7FFF_FFFF_FFFF_FFFF),
];

#[test]
fn morton_numbers_of_a_quadtree(rt: HostRuntime) {
    for (x, y, number) in &QUADTREE {
        assert_eq!(rt; morton2(*x, *y), *number);
        assert_eq!(rt; unmorton2(*number), (*x, *y));
    }
}

#[test]
fn morton_numbers_of_an_octree(rt: HostRuntime) {
    for (x, y, z, number) in &OCTREE {
        assert_eq!(rt; morton3(*x, *y, *z), *number);
        assert_eq!(rt; unmorton3(*number), (*x, *y, *z));
    }
}

/// The bits of as many bytes.
fn made(alloc: Global, bytes: &[u8], count: u64) -> Result<Bits, BitsError> {
    let shared = Bytes::copy_from_slice(alloc, bytes)?;
    Bits::from_bytes(alloc, shared, count)
}

/// Why there are no bits, if there are none.
fn cause(bits: Result<Bits, BitsError>) -> Option<BitsError> {
    match bits {
        Ok(_) => None,
        Err(cause) => Some(cause),
    }
}

/// The bits are these, one by one.
fn are<L: Ledger>(bits: &Bits, values: &[bool], blank: Blank) -> bool
    requires name { blank.name ≡ L.name }
    requires parts { blank.parts ≡ L.parts }
    requires some { 0 < L.parts }
{
    let mut steps = Steps::<L>::new(blank);
    if bits.len() != values.len() as u64 {
        return false;
    }
    for (i, value) in values.iter().enumerate() {
        if bits.bit(i as u64, &mut steps) != *value {
            return false;
        }
    }
    true
}

/// The ranks of these places are these.
fn have_ranks(bits: &Bits, ranks: &[(u64, u64)]) -> bool {
    for (i, rank) in ranks {
        if bits.len() < *i || bits.rank(*i) != *rank {
            return false;
        }
    }
    true
}

/// The bits of the byte 0x0b, which is 1011 in binary.
static FEW: [bool; 5] = [true, true, false, true, false];

/// How many of its first bits are set.
static FEW_RANKS: [(u64, u64); 6] = [(0, 0), (1, 1), (2, 2), (3, 2), (4, 3), (5, 3)];

#[test]
fn bits_of_a_byte(rt: HostRuntime) {
    match made(rt.alloc(), &[0x0b], 5) {
        Ok(bits) => {
            assert!(rt; are::<Brand>(&bits, &FEW, Blank::new(1)));
            assert!(rt; have_ranks(&bits, &FEW_RANKS));
        }
        Err(_) => assert!(rt; false, "there is a byte, and memory"),
    }
}

/// 133 bits: a word of ones, four bytes of zeros, then bits 103, 104 and 112 to 115, then ones.
static LONG: [u8; 17] = [
    0xFF, 0xFF, 0xFF, 0xFF, 0xFF, 0xFF, 0xFF, 0xFF, 0, 0, 0, 0, 0x80, 0x01, 0x0F, 0, 0xFF,
];

/// How many bits are set before these places, counted by hand.
static LONG_RANKS: [(u64, u64); 14] = [
    (0, 0),
    (1, 1),
    (63, 63),
    (64, 64),
    (65, 64),
    (96, 64),
    (103, 64),
    (104, 65),
    (105, 66),
    (112, 66),
    (116, 70),
    (128, 70),
    (129, 71),
    (133, 75),
];

#[test]
fn ranks_across_words(rt: HostRuntime) {
    match made(rt.alloc(), &LONG, 133) {
        Ok(bits) => assert!(rt; have_ranks(&bits, &LONG_RANKS)),
        Err(_) => assert!(rt; false, "there are bytes, and memory"),
    }
}

/// Bytes, how many bits are asked of them, and whether that is too many.
static ENOUGH: [(&[u8], u64, bool); 7] = [
    (&[], 0, false),
    (&[], 1, true),
    (&[0x0b], 8, false),
    (&[0x0b], 9, true),
    (&[0x0b, 0], 9, false),
    (&[0x0b, 0], 17, true),
    (&[0x0b], u64::MAX, true),
];

#[test]
fn too_few_bytes(rt: HostRuntime) {
    let alloc = rt.alloc();
    for (bytes, count, short) in &ENOUGH {
        let wanted = if *short { Some(BitsError::Short) } else { None };
        assert_eq!(rt; cause(made(alloc, bytes, *count)), wanted);
    }
}

/// Seven times the same.
static SEVEN: [bool; 7] = [true; 7];

#[test]
fn constants(rt: HostRuntime) {
    assert!(rt; are::<Brand>(&Bits::constant(true, 7), &SEVEN, Blank::new(1)));
    assert!(rt; have_ranks(&Bits::constant(true, 7), &[(0, 0), (3, 3), (7, 7)]));
    assert!(rt; have_ranks(&Bits::constant(false, 7), &[(0, 0), (3, 0), (7, 0)]));
    assert_eq!(rt; Bits::constant(false, u64::MAX).len(), u64::MAX);
}
