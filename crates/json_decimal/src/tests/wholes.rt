//! Numbers whose value is whole, in many spellings, and numbers whose value is not.

use crate::{WIDE_LIMIT, Whole, clamped_whole_of, whole_of};
use std::process::Abort;

/// A number's text, and the whole number that it spells, if it spells one.
type Row = (&'static str, Option<Whole>);

fn check_row(rt: &impl Abort, row: &Row) {
    let (text, whole) = row;
    assert_eq!(rt; whole_of(text), *whole, "of {text}");
}

const FOUR: Option<Whole> = Some(Whole::Is(4));

const ZERO: Option<Whole> = Some(Whole::Is(0));

const BEYOND: Option<Whole> = Some(Whole::Beyond);

const MOST: Option<Whole> = Some(Whole::Is(9_223_372_036_854_775_807));

const LEAST: Option<Whole> = Some(Whole::Is(-9_223_372_036_854_775_807));

static SPELLINGS: [Row; 14] = [
    ("4", FOUR),
    ("4.0", FOUR),
    ("40e-1", FOUR),
    ("0.4E+1", FOUR),
    ("4000000000000000000000000000000e-30", FOUR),
    ("0.000000000000000000000000000004e30", FOUR),
    ("-12.50e1", Some(Whole::Is(-125))),
    ("-0", ZERO),
    ("-0.000e-7", ZERO),
    ("0e999999999999999999999", ZERO),
    ("0e-999999999999999999999", ZERO),
    ("4.000000000000000000000000000001", None),
    ("45e-1", None),
    ("-0.5", None),
];

#[test]
fn spellings(rt: HostRuntime) {
    for row in SPELLINGS.iter() {
        check_row(&rt, row);
    }
}

static SIZES: [Row; 12] = [
    ("9223372036854775807", MOST),
    ("-9223372036854775807", LEAST),
    ("9223372036854775807.0", MOST),
    ("92233720368547758070e-1", MOST),
    ("-0.9223372036854775807E19", LEAST),
    ("9223372036854775808", BEYOND),
    ("-9223372036854775808", BEYOND),
    ("-92233720368547758080e-1", BEYOND),
    ("9223372036854775807.5", None),
    ("18446744073709551616", BEYOND),
    ("184467440737095516160000000000000004", BEYOND),
    ("184467440737095516160000000000000004e-1", None),
];

#[test]
fn sizes(rt: HostRuntime) {
    for row in SIZES.iter() {
        check_row(&rt, row);
    }
}

static EXPONENTS: [Row; 8] = [
    ("1e18", Some(Whole::Is(1_000_000_000_000_000_000))),
    ("1e19", BEYOND),
    ("1e400", BEYOND),
    ("-1e400", BEYOND),
    ("1e-400", None),
    ("1e99999999999999999999999999999999999999999", BEYOND),
    ("1e-99999999999999999999999999999999999999999", None),
    ("1e-18446744073709551616", None),
];

#[test]
fn exponents(rt: HostRuntime) {
    for row in EXPONENTS.iter() {
        check_row(&rt, row);
    }
}

static WIDE: [(&str, Option<i128>); 7] = [
    ("18446744073709551615", Some(18_446_744_073_709_551_615)),
    ("1.8446744073709551616e19", Some(18_446_744_073_709_551_616)),
    ("-9223372036854775808.0", Some(-9_223_372_036_854_775_808)),
    (
        "340282366920938463463374607431768211455",
        Some(WIDE_LIMIT as i128),
    ),
    ("1e999999999999999999999", Some(WIDE_LIMIT as i128)),
    ("-1e39", Some(-(WIDE_LIMIT as i128))),
    ("-0.5", None),
];

#[test]
fn wide_sizes(rt: HostRuntime) {
    for (text, whole) in WIDE.iter() {
        assert_eq!(rt; clamped_whole_of(text), *whole, "of {text}");
    }
}
