//! A view and its limits.

ghost use Rattle.std.specs.Prelude.{◌≡◌, ◌*◌, ◌^◌, ◌<◌, ◌≤◌, ◌↔◌, length, take, IsOk, MatchOption};
ghost use Rattle.std.specs.List.{list_all};
ghost use Rattle.error_test.specs.Padding.{padded};
ghost use Rattle.error_test.specs.Views.{IsViewInRange, field_past_limit, is_bounding, is_counted};
ghost use Rattle.error_test.specs.Views.{is_within, plane_limit, view_parts};

use crate::limits::{ALLOWED_LIMIT, HEIGHT_LIMIT, PLANE_LIMIT, TANGENT_LIMIT};
use fixed_geometry::{COORDINATE_LIMIT, Point};
use std::marker::Model;
use volumes::{NORMAL_LIMIT, OFFSET_LIMIT, Plane};

/// The part of a view that is past its limits.
#[derive(Clone, Copy, Debug, PartialEq, Eq)]
pub enum Field {
    /// The screen's height in pixels: 1 to 65,536.
    Height,
    /// The numbers of the tangent's fraction: 1 to 1,048,576 each.
    Tangent,
    /// The error allowed, in sixteenths of a pixel: 1 to 1,048,576.
    Allowed,
    /// The eye: each component within 2^36 millimetres in size.
    Eye,
    /// The planes: at most 16, each with a normal that isn't zero, its components within 2^20 in
    /// size, and an offset within 2^57.
    Planes,
}

/// Why there is no view.
#[derive(Clone, Copy, Debug, PartialEq, Eq)]
pub enum ViewError {
    /// This part, the first in the order of `Field`, is past its limits.
    Range { field: Field },
}

/// A view: the eye in millimetres, the screen's height in pixels, the tangent of half the vertical
/// field of view as a fraction, the error that it allows in sixteenths of a pixel, and up to 16
/// planes that bound it.
#[derive(Clone, Copy, Debug, PartialEq, Eq)]
pub struct View {
    eye: Point,
    height: u32,
    tan_over: u32,
    tan_under: u32,
    allowed: u32,
    plane_count: usize,
    planes: [Plane; PLANE_LIMIT],
}

impl Model for View {
    ghost use Rattle.std.specs.Prelude.{take, length};
    ghost use Rattle.error_test.specs.Views.{ViewParts, view_parts};
    ghost use Rattle.error_test.specs.Padding.{IsKept, length-kept, padded};
    ghost use Rattle.std.proofs.Common.{refl};

    ghost Value = { ViewParts };

    ghost view = { λ v.
        view_parts v.eye v.height v.tan_over v.tan_under v.allowed
        (take v.plane_count v.planes) };

    ghost invariant = { λ v. IsKept v.plane_count v.planes
        (view_parts v.eye v.height v.tan_over v.tan_under v.allowed
        (take v.plane_count v.planes)) };

    ghost inverse = { λ p. record {
      eye = p.eye;
      height = p.height;
      tan_over = p.tan_over;
      tan_under = p.tan_under;
      allowed = p.allowed;
      plane_count = length p.planes;
      planes = padded p.planes;
    } };

    ghost inverse_ok = { λ a h.
        Prim.rw (h.rest, length-kept a.plane_count a.planes h.few h.rest) refl };
}

impl View {
    /// The view of these parts, or the first part that is past its limits.
    pub fn new(
        eye: Point,
        height: u32,
        tan_over: u32,
        tan_under: u32,
        allowed: u32,
        planes: &[Plane],
    ) -> Result<View, ViewError>
        ensures value { let asked = view_parts eye height tan_over tan_under allowed planes.now in
            MatchOption (field_past_limit asked)
            (result ≡ Ok asked)
            (λ field. result ≡ Err (ViewError.Range field)) }
        ensures within { let asked = view_parts eye height tan_over tan_under allowed planes.now in
            IsOk result ↔ IsViewInRange asked }
    {
        if let Some(field) = field_past_limit(eye, height, tan_over, tan_under, allowed, planes) {
            return Err(ViewError::Range { field });
        }
        Ok(View {
            eye,
            height,
            tan_over,
            tan_under,
            allowed,
            plane_count: planes.len(),
            planes: padded(planes),
        })
    }

    /// The eye, in millimetres.
    pub fn eye(&self) -> Point
        ensures value { result ≡ self.now.eye }
        ensures within { IsViewInRange self.now }
    {
        self.eye
    }

    /// The screen's height, in pixels.
    pub fn height(&self) -> u32
        ensures { result ≡ self.now.height }
    {
        self.height
    }

    /// What stands above the line of the fraction that is the tangent of half the vertical field
    /// of view.
    pub fn tan_over(&self) -> u32
        ensures { result ≡ self.now.tan_over }
    {
        self.tan_over
    }

    /// What stands below that line.
    pub fn tan_under(&self) -> u32
        ensures { result ≡ self.now.tan_under }
    {
        self.tan_under
    }

    /// The error that the view allows, in sixteenths of a pixel.
    pub fn allowed(&self) -> u32
        ensures { result ≡ self.now.allowed }
    {
        self.allowed
    }

    /// The planes that bound the view.
    pub fn planes(&self) -> &[Plane]
        ensures value { result.now ≡ self.now.planes }
        ensures within { IsViewInRange self.now }
    {
        &self.planes[..self.plane_count]
    }

    /// What an error is multiplied by in the error test.
    pub(crate) fn error_factor(&self) -> u64
        ensures value { result ≡ self.now.height * self.now.tan_under * 16 }
        ensures bound { result ≤ 2 ^ 40 }
    {
        u64::from(self.height) * u64::from(self.tan_under) * 16
    }

    /// What a distance is multiplied by in the error test.
    pub(crate) fn distance_factor(&self) -> u64
        ensures value { result ≡ self.now.allowed * 2 * self.now.tan_over * 1000 }
        ensures positive { 0 < result }
    {
        u64::from(self.allowed) * 2 * u64::from(self.tan_over) * 1000
    }
}

/// The first part that is past its limits.
fn field_past_limit(
    eye: Point,
    height: u32,
    tan_over: u32,
    tan_under: u32,
    allowed: u32,
    planes: &[Plane],
) -> Option<Field>
    ensures { let asked = view_parts eye height tan_over tan_under allowed planes.now in
        result ≡ field_past_limit asked }
{
    if !is_counted(HEIGHT_LIMIT, height) {
        Some(Field::Height)
    } else if !(is_counted(TANGENT_LIMIT, tan_over) && is_counted(TANGENT_LIMIT, tan_under)) {
        Some(Field::Tangent)
    } else if !is_counted(ALLOWED_LIMIT, allowed) {
        Some(Field::Allowed)
    } else if !is_within(COORDINATE_LIMIT, eye) {
        Some(Field::Eye)
    } else if !(planes.len() <= PLANE_LIMIT && are_bounding(planes)) {
        Some(Field::Planes)
    } else {
        None
    }
}

fn is_counted(limit: u32, n: u32) -> bool
    ensures { result ≡ is_counted limit n }
{
    1 <= n && n <= limit
}

/// Whether each component is at most the limit in size.
fn is_within(limit: u64, p: Point) -> bool
    ensures { result ≡ is_within limit p }
{
    p.is_within(limit)
}

fn are_bounding(planes: &[Plane]) -> bool
    ensures { result ≡ list_all is_bounding planes.now }
{
    planes.iter().all(|plane| is_bounding(plane))
}

/// Whether the normal isn't zero, and normal and offset are within their limits.
fn is_bounding(plane: &Plane) -> bool
    ensures { result ≡ is_bounding plane.now }
{
    is_within(NORMAL_LIMIT, plane.n)
        && !(plane.n.norm() == 0)
        && plane.d.unsigned_abs() <= OFFSET_LIMIT
}

/// The planes as a prefix of as many as there may be, with zeros behind them.
fn padded(planes: &[Plane]) -> [Plane; PLANE_LIMIT]
    requires { length planes.now ≤ plane_limit }
    ensures { result ≡ padded planes.now }
{
    let none = Plane {
        n: Point { x: 0, y: 0, z: 0 },
        d: 0,
    };
    let mut padded = [none; PLANE_LIMIT];
    padded[..planes.len()].copy_from_slice(planes);
    padded
}
