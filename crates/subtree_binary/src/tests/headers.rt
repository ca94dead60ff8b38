//! Headers, and subtrees that are cut off.

use super::*;

/// The first cause of as many bytes of a subtree of 200 bytes.
fn cause_when_cut(length: usize) -> Option<SubtreeError> {
    match length {
        0..4 => Some(SubtreeError::Magic),
        4..8 => Some(SubtreeError::Version),
        8..200 => Some(SubtreeError::Lengths),
        _ => None,
    }
}

#[test]
fn cut_at_each_length(rt: HostRuntime) -> Result<(), Fail> {
    let alloc = rt.alloc();
    let whole = of_chunks(alloc, TWO_LEVELS, &ELEVEN)?;
    assert_eq!(rt; whole.len(), 200);
    for length in 0..=whole.len() {
        let bytes = whole.slice(..length)?;
        let met = read(alloc, &bytes, false, 2, 0).err();
        assert_eq!(rt; met, cause_when_cut(length), "of {length} bytes");
    }
    Ok(())
}

#[test]
fn bytes_behind_the_chunks(rt: HostRuntime) -> Result<(), Fail> {
    let alloc = rt.alloc();
    let json = TWO_LEVELS.as_bytes();
    let bytes = with_header(alloc, 168, 8, &[json, &ELEVEN, b"more"])?;
    assert!(rt; read(alloc, &bytes, false, 2, 0).is_ok());
    // Lengths that are no multiples of 8.
    let bytes = with_header(alloc, 166, 1, &[&json[..166], b"\x0b"])?;
    assert_eq!(rt; read(alloc, &bytes, false, 2, 0).err(), None);
    Ok(())
}

#[test]
fn other_fronts(rt: HostRuntime) -> Result<(), Fail> {
    let alloc = rt.alloc();
    let rows: [(&[u8], SubtreeError); 6] = [
        (b"", SubtreeError::Magic),
        (b"SUBT\x01\0\0\0", SubtreeError::Magic),
        (TWO_LEVELS.as_bytes(), SubtreeError::Magic),
        (b"subt\x02\0\0\0", SubtreeError::Version),
        (b"subt\0\0\0\x01", SubtreeError::Version),
        (b"subt\x01\0\0\x01", SubtreeError::Version),
    ];
    for (front, cause) in &rows {
        let bytes = Bytes::copy_from_slice(alloc, front)?;
        assert_eq!(rt; read(alloc, &bytes, false, 2, 0).err(), Some(*cause));
    }
    Ok(())
}

/// Lengths of the chunks of which each pair passes the 176 bytes behind the header; most of the
/// sums have more than 64 binary digits.
static LENGTHS: [(u64, u64); 9] = [
    (u64::MAX, u64::MAX),
    (u64::MAX, 0),
    (0, u64::MAX),
    (u64::MAX, 1),
    (u64::MAX, 25),
    (u64::MAX - 23, 0),
    (1 << 63, 1 << 63),
    (168, 9),
    (169, 8),
];

#[test]
fn lengths_past_the_bytes(rt: HostRuntime) -> Result<(), Fail> {
    let alloc = rt.alloc();
    for (json, binary) in &LENGTHS {
        let bytes = with_header(alloc, *json, *binary, &[TWO_LEVELS.as_bytes(), &ELEVEN])?;
        let met = read(alloc, &bytes, false, 2, 0).err();
        assert_eq!(rt; met, Some(SubtreeError::Lengths), "of {json} and {binary}");
    }
    Ok(())
}
