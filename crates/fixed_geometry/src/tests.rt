//! Decimals, quotients, roots and maps at given numbers, and each public call once.

ghost use Rattle.std.specs.Prelude.{◌≡◌, length};

use crate::{
    Affine, AffineError, COORDINATE_LIMIT, ERROR_LIMIT, OutOfRange, Point, SCALED_LIMIT, Sixteen,
    clamp, half, root_ceil, root_floor, scaled, scaled_clamped, transposed, up,
};

const MILLIMETRES: u8 = 3;

const MICROMETRES: u8 = 6;

/// Both forms of reading agree where the number is within the limit.
#[test]
fn metres_to_millimetres(rt: HostRuntime) {
    let rows = [
        ("-0", 0),
        ("1E+2", 100_000),
        ("0.0005", 1),
        ("-0.0005", -1),
        ("0.0004999", 0),
        ("-12345.678", -12_345_678),
        ("68719476.736", 68_719_476_736),
        ("-68719476.7364999", -68_719_476_736),
        ("0.000000000000000000000000000000123e35", 12_300_000),
        ("12345e-99999999999999999999", 0),
        ("0e99999999999999999999", 0),
    ];
    for (text, wanted) in rows.iter() {
        assert_eq!(rt;
            scaled(text, MILLIMETRES, COORDINATE_LIMIT as i128),
            Ok(*wanted)
        );
        assert_eq!(rt;
            scaled_clamped(text, MILLIMETRES, COORDINATE_LIMIT as i128),
            *wanted
        );
    }
}

/// A number past the limit is refused by the one form, and clamped by the other.
#[test]
fn numbers_past_the_limit(rt: HostRuntime) {
    let coordinate = COORDINATE_LIMIT as i128;
    let error = ERROR_LIMIT as i128;
    let largest = SCALED_LIMIT as i128;
    let rows = [
        ("68719476.7365", MILLIMETRES, coordinate, 68_719_476_736),
        ("-68719476.7365", MILLIMETRES, coordinate, -68_719_476_736),
        ("1e400", MILLIMETRES, coordinate, 68_719_476_736),
        (
            "99999999999999999999",
            MILLIMETRES,
            coordinate,
            68_719_476_736,
        ),
        (
            "-1e99999999999999999999",
            MILLIMETRES,
            coordinate,
            -68_719_476_736,
        ),
        ("1e400", MICROMETRES, error, 1_125_899_906_842_624),
        ("-1e400", MICROMETRES, error, -1_125_899_906_842_624),
        (
            "1125899906.8426245",
            MICROMETRES,
            error,
            1_125_899_906_842_624,
        ),
        ("0.5", 0, 0, 0),
        (
            "1152921504606846976.5",
            0,
            largest,
            1_152_921_504_606_846_976,
        ),
    ];
    for (text, places, max, wanted) in rows.iter() {
        assert_eq!(rt; scaled(text, *places, *max), Err(OutOfRange));
        assert_eq!(rt; scaled_clamped(text, *places, *max), *wanted);
    }
    assert_eq!(rt; scaled("0.4", 0, 0), Ok(0));
    assert_eq!(rt; scaled("1125899906.842624", MICROMETRES, error), Ok(error));
    assert_eq!(rt; scaled("1152921504606846976", 0, largest), Ok(largest));
}

#[test]
fn a_thousand_digits(rt: HostRuntime) {
    // 1, a point and 998 zeros; then a thousand nines.
    let limit = COORDINATE_LIMIT as i128;
    let mut text = [b'0'; 1000];
    text[0] = b'1';
    text[1] = b'.';
    match std::str::from_utf8(&text) {
        Ok(text) => assert_eq!(rt; scaled(text, MILLIMETRES, limit), Ok(1000)),
        Err(_) => assert!(rt; false),
    }
    match std::str::from_utf8(&[b'9'; 1000]) {
        Ok(text) => assert_eq!(rt; scaled(text, MILLIMETRES, limit), Err(OutOfRange)),
        Err(_) => assert!(rt; false),
    }
}

#[test]
fn quotients(rt: HostRuntime) {
    assert_eq!(rt; half(7, 2), 4);
    assert_eq!(rt; half(-7, 2), -4);
    assert_eq!(rt; half(-4, 3), -1);
    assert_eq!(rt; up(4, 3), 2);
    assert_eq!(rt; up(-4, 3), -2);
    assert_eq!(rt; up(-6, 3), -2);
    assert_eq!(rt; clamp(-0x10_0000_0001), -0x10_0000_0000);
    assert_eq!(rt; clamp(0x10_0000_0001), 0x10_0000_0000);
    assert_eq!(rt; clamp(-5), -5);
}

#[test]
fn roots(rt: HostRuntime) {
    let rows = [
        (0, 0, 0),
        (1, 1, 1),
        (24, 4, 5),
        (25, 5, 5),
        // 2^52 - 1, whose square and one less are floats no more
        (
            0xf_ffff_ffff_ffff * 0xf_ffff_ffff_ffff,
            0xf_ffff_ffff_ffff,
            0xf_ffff_ffff_ffff,
        ),
        (
            0xf_ffff_ffff_ffff * 0xf_ffff_ffff_ffff - 1,
            0xf_ffff_ffff_fffe,
            0xf_ffff_ffff_ffff,
        ),
        // 2^127, and the greatest number
        (
            1 << 127,
            13_043_817_825_332_782_212,
            13_043_817_825_332_782_213,
        ),
        (u128::MAX, 0xffff_ffff_ffff_ffff, 0x1_0000_0000_0000_0000),
    ];
    for (n, floor, ceiling) in rows.iter() {
        assert_eq!(rt; root_floor(*n), *floor);
        assert_eq!(rt; root_ceil(*n), *ceiling);
    }
}

fn point(x: i64, y: i64, z: i64) -> Point
    ensures { result ≡ record { x = x; y = y; z = z } }
{
    Point { x, y, z }
}

#[test]
fn points(rt: HostRuntime) {
    let p = point(1, -2, 3);
    let q = point(4, 5, -6);
    assert_eq!(rt; p.dot(q), -24);
    assert_eq!(rt; p.norm(), 14);
    assert_eq!(rt; p.minus(q), point(-3, -7, 9));
    assert!(rt; p.is_within(3));
    assert!(rt; !p.is_within(2));
    let (x, y, z) = transposed(p, q, point(7, 8, 9));
    assert_eq!(rt; x, point(1, 4, 7));
    assert_eq!(rt; y, point(-2, 5, 8));
    assert_eq!(rt; z, point(3, -6, 9));
}

fn read_sixteen(texts: [&'static str; 16]) -> Sixteen
    ensures { length result ≡ 16 }
{
    let mut numbers = Sixteen::new();
    for text in texts.iter() {
        numbers.add(text);
    }
    numbers
}

#[test]
fn a_stretching_map(rt: HostRuntime) {
    let Ok(map) = Affine::from_sixteen(&read_sixteen([
        "0.5", "0", "0", "0", "0", "2", "0", "0", "0", "0", "1", "0", "1", "0", "0", "1",
    ])) else {
        return assert!(rt; false);
    };
    let p = point(1000, 1000, 1000);
    assert_eq!(rt; map.max_scale(), 2_000_000_000);
    assert_eq!(rt; map.apply(p), point(1500, 2000, 1000));
    assert_eq!(rt; map.apply_vector(p), point(500, 2000, 1000));
    assert_eq!(rt; map.then(&map).apply(p), point(1750, 4000, 1000));
    assert_eq!(rt;
        Affine::identity().then(&map).apply(p),
        point(1500, 2000, 1000)
    );
}

#[test]
fn a_shifting_map(rt: HostRuntime) {
    let Ok(map) = Affine::from_sixteen(&read_sixteen([
        "1", "0", "0", "0", "0", "1", "0", "0", "0", "0", "1", "0", "0.5", "-1", "2", "1",
    ])) else {
        return assert!(rt; false);
    };
    let p = point(1000, 1000, 68_719_476_736);
    assert_eq!(rt; map.max_scale(), 1_000_000_000);
    assert_eq!(rt; map.apply(p), point(1500, 0, 68_719_476_736));
    assert_eq!(rt; map.apply_vector(p), p);
}

#[test]
fn numbers_that_give_no_map(rt: HostRuntime) {
    let far = read_sixteen([
        "0.5", "0", "1048577", "0", "0", "2", "0", "1", "0", "0", "1", "0", "1e300", "0", "0", "1",
    ]);
    let skew = read_sixteen([
        "0.5", "0", "0", "0", "0", "2", "0", "1", "0", "0", "1", "0", "1", "0", "0", "1",
    ]);
    let rows = [
        (far, AffineError::OutOfRange { index: 2 }),
        (skew, AffineError::NotAffine),
    ];
    for (numbers, wanted) in rows.iter() {
        match Affine::from_sixteen(numbers) {
            Ok(_) => assert!(rt; false),
            Err(error) => assert_eq!(rt; error, *wanted),
        }
    }
}
