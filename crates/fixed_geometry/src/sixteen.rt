//! The sixteen numbers of a transform.

ghost use Rattle.std.specs.Prelude.{◌≡◌, ◌≤◌, length};
ghost use Rattle.fixed_geometry.specs.Sixteen as sixteen;

use crate::affine::ONE;
use crate::decimal::scaled;
use crate::limits::{COORDINATE_LIMIT, LINEAR_LIMIT};
use crate::point::Point;
use std::marker::Model;

/// Why sixteen numbers give no map.
#[derive(Clone, Copy, Debug, PartialEq, Eq)]
pub enum AffineError {
    /// The number at this index, and none before it, was out of range.
    OutOfRange { index: usize },
    /// The bottom row is not 0, 0, 0, 1.
    NotAffine,
}

/// Up to sixteen numbers in column-major order, each as a map reads it at its index, or none where
/// it was out of range.
///
/// Numbers 12, 13 and 14, the shift, are read from metres to millimetres and are at most 2^36 in
/// size; the others are read in 10^-9 parts and are at most 2^20 * 10^9 in size.
#[derive(Drop)]
pub struct Sixteen {
    count: usize,
    values: [Option<i64>; 16],
}

impl Model for Sixteen {
    ghost use Rattle.std.specs.Prelude.{ℤ, List, Option, take};
    ghost use Rattle.fixed_geometry.specs.Sixteen.{AreNumbersInRange};

    ghost Value = { List (Option ℤ) };

    ghost view = { λ s. take s.count s.values };

    ghost invariant = { λ s. AreNumbersInRange s.count s.values };
}

impl Sixteen {
    ghost use Rattle.std.specs.Prelude.{◌≡◌, ◌≤◌, ◌<◌, ◌++◌, ◌∷◌, [], length, unsigned_abs};
    ghost use Rattle.fixed_geometry.specs.Points.{IsWithin, coordinate_limit};
    ghost use Rattle.fixed_geometry.specs.Maps.{linear_limit};
    ghost use Rattle.fixed_geometry.specs.Sixteen as sixteen;

    /// No numbers yet.
    pub fn new() -> Sixteen
        ensures { result ≡ [] }
    {
        Sixteen {
            count: 0,
            values: [None; 16],
        }
    }

    /// Appends a number, given by its text, as it is read at its index.
    pub fn add(&mut self, number: &str)
        requires { length self.old < 16 }
        ensures { self.new ≡ self.old ++ sixteen.read_at (length self.old) number.now ∷ [] }
    {
        self.values[self.count] = read_at(self.count, number);
        self.count += 1;
    }

    /// The first index out of range, or the length.
    pub(crate) fn first_missing(&self) -> usize
        ensures value { result ≡ sixteen.first_missing self.now }
        ensures within { result ≤ length self.now }
    {
        let values = &self.values[..self.count];
        first_none(values)
    }

    /// Whether the bottom row is 0, 0, 0, 1.
    pub(crate) fn is_affine(&self) -> bool
        requires { length self.now ≡ 16 }
        ensures { result ≡ sixteen.is_affine self.now }
    {
        self.at(3) == 0 && self.at(7) == 0 && self.at(11) == 0 && self.at(15) == ONE
    }

    /// The linear entries at three indexes.
    pub(crate) fn linear(&self, x: usize, y: usize, z: usize) -> Point
        requires all { length self.now ≡ 16 }
        requires x { x < 12 }
        requires y { y < 12 }
        requires z { z < 12 }
        ensures x { result.x ≡ sixteen.number_at self.now x }
        ensures y { result.y ≡ sixteen.number_at self.now y }
        ensures z { result.z ≡ sixteen.number_at self.now z }
        ensures bound { IsWithin linear_limit result }
    {
        Point {
            x: self.at(x),
            y: self.at(y),
            z: self.at(z),
        }
    }

    pub(crate) fn shift(&self) -> Point
        requires { length self.now ≡ 16 }
        ensures x { result.x ≡ sixteen.number_at self.now 12 }
        ensures y { result.y ≡ sixteen.number_at self.now 13 }
        ensures z { result.z ≡ sixteen.number_at self.now 14 }
        ensures bound { IsWithin coordinate_limit result }
    {
        Point {
            x: self.at(12),
            y: self.at(13),
            z: self.at(14),
        }
    }

    /// The number at an index, or 0 where it was out of range.
    fn at(&self, i: usize) -> i64
        requires added { i < length self.now }
        requires within { i < 16 }
        ensures value { result ≡ sixteen.number_at self.now i }
        ensures bound { unsigned_abs result ≤ sixteen.limit_at i }
    {
        match self.values[i] {
            Some(v) => v,
            None => 0,
        }
    }
}

fn read_at(index: usize, number: &str) -> Option<i64>
    ensures { result ≡ sixteen.read_at index number.now }
{
    let is_shift = 12 <= index && index < 15;
    let places = if is_shift { 3 } else { 9 };
    let limit = if is_shift {
        COORDINATE_LIMIT
    } else {
        LINEAR_LIMIT
    };
    match scaled(number, places, i128::from(limit)) {
        Ok(value) => Some(value as i64),
        Err(_) => None,
    }
}

/// Where the first `None` stands, or the length.
fn first_none(values: &[Option<i64>]) -> usize
    ensures value { result ≡ sixteen.first_missing values.now }
    ensures within { result ≤ length values.now }
{
    for (i, value) in values.iter().enumerate() {
        if value.is_none() {
            return i;
        }
    }
    values.len()
}
