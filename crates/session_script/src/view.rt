//! The text of a view: `@x,y,z:H:T/D:E` and then `:nx,ny,nz,d` for each plane.

ghost use Rattle.std.specs.Prelude.{◌≡◌, ℕ, ◌≤◌, List, ◌∷◌, ◌++◌, length, map, take, All};
ghost use Rattle.std.specs.Prelude.{IfOk, IfSome, IsNone, IsSomeAnd, OnOk, codes, string_bytes};
ghost use Rattle.std.specs.Fmt.{decimal};
ghost use Rattle.std.specs.List.{join_with_byte};
ghost use Rattle.error_test.specs.Views.{ViewParts, plane_limit};
ghost use Rattle.volumes.specs.declared.plane.Plane.{Plane};
ghost use Rattle.session_script.specs.Ascii.{colon};
ghost use Rattle.session_script.specs.Readers.{Reads, ReadsPrefix};
ghost use Rattle.session_script.specs.ViewTexts.{IsFractionOf32, IsNumberOf32, IsPlaneOf64};
ghost use Rattle.session_script.specs.ViewTexts.{IsPointOf64, IsWithinLimits, text_of_fields};
ghost use Rattle.session_script.specs.ViewTexts.{text_of_fraction, text_of_plane, text_of_point};
ghost use Rattle.session_script.specs.ViewTexts.{text_of_screen, text_of_view, without_planes};
ghost use Rattle.session_script.specs.Views.{view_of};

use crate::marks::{cut, first_part};
use crate::number::number;
use crate::planes::read_planes;
use crate::points::point;
use error_test::{PLANE_LIMIT, View};
use fixed_geometry::Point;
use std::alloc::{AllocError, Global};
use tile_types::Text;
use volumes::Plane;

/// The view that the text spells, or nothing exactly where it isn't the one spelling of a view
/// within the limits. Takes no memory.
pub fn read_view(text: &str) -> Option<View>
    ensures value { result ≡ view_of text.now }
    ensures found { IfSome result (λ view. text.now ≡ text_of_view view) }
    ensures within { IfSome result (λ view. IsWithinLimits view) }
    ensures spelled { (view : ViewParts) → IsWithinLimits view → text.now ≡ text_of_view view
        → result ≡ Some view }
    ensures none { IsNone result → (view : ViewParts) → IsWithinLimits view
        → text.now ≡ text_of_view view → ⊥ }
{
    view_of_fields(text.strip_prefix('@')?)
}

/// The view whose fields the text spells, with a colon between each two.
fn view_of_fields(text: &str) -> Option<View>
    ensures read { Reads text_of_fields IsWithinLimits text.now result }
    ensures within { IfSome result (λ view. IsWithinLimits view) }
{
    let (eye, rest) = eye_and_rest(text)?;
    let (height, rest) = height_and_rest(rest)?;
    let ((tan_over, tan_under), rest) = tangent_and_rest(rest)?;
    let mut planes = [NO_PLANE; PLANE_LIMIT];
    let (allowed, count) = allowed_and_planes(rest, &mut planes)?;
    View::new(eye, height, tan_over, tan_under, allowed, &planes[..count]).ok()
}

/// The text of a view, in its one spelling.
pub fn view_text(alloc: Global, view: &View) -> Result<Text, AllocError>
    ensures value { IfOk result (λ text. text ≡ text_of_view view.now) }
    ensures within { IfOk result (λ _. IsWithinLimits view.now) }
{
    let text = written(alloc, view)?;
    Text::new(alloc, text.as_str())
}

fn written(alloc: Global, view: &View) -> Result<String, AllocError>
    ensures value { IfOk result (λ text. string_bytes text ≡ text_of_view view.now) }
    ensures within { IfOk result (λ _. IsWithinLimits view.now) }
{
    let mut text = text_before_planes(alloc, view)?;
    for plane in view.planes() {
        push_plane(&mut text, plane)?;
    }
    Ok(text)
}

/// The text of a view up to its planes.
fn text_before_planes(alloc: Global, view: &View) -> Result<String, AllocError>
    ensures { IfOk result (λ text. string_bytes text ≡ text_of_view (without_planes view.now)) }
{
    let mut text = text_of_eye(alloc, view.eye())?;
    push_screen(&mut text, view)?;
    Ok(text)
}

fn text_of_eye(alloc: Global, eye: Point) -> Result<String, AllocError>
    ensures { IfOk result (λ text. string_bytes text ≡ codes "@" ++ text_of_point eye) }
{
    let Point { x, y, z } = eye;
    format!(in alloc; "@{x},{y},{z}")
}

/// Appends the height, the tangent and the allowed error.
fn push_screen(text: &mut String, view: &View) -> Result<(), AllocError>
    ensures { OnOk result
        (string_bytes text.new ≡ string_bytes text.old ++ colon ∷ text_of_screen view.now) }
{
    let height = view.height();
    let tan_over = view.tan_over();
    let tan_under = view.tan_under();
    let allowed = view.allowed();
    write!(text, ":{height}:{tan_over}/{tan_under}:{allowed}")
}

fn push_plane(text: &mut String, plane: &Plane) -> Result<(), AllocError>
    ensures { OnOk result
        (string_bytes text.new ≡ string_bytes text.old ++ colon ∷ text_of_plane plane.now) }
{
    let Plane { n, d } = *plane;
    let Point { x, y, z } = n;
    write!(text, ":{x},{y},{z},{d}")
}

/// What stands where there is no plane.
const NO_PLANE: Plane = Plane {
    n: Point { x: 0, y: 0, z: 0 },
    d: 0,
};

/// The eye that is spelled before the first colon, and what stands behind that colon.
fn eye_and_rest(text: &str) -> Option<(Point, &str)>
    ensures { ReadsPrefix text_of_point IsPointOf64 colon text.now result }
{
    let (eye, rest) = cut(text, ':')?;
    Some((point(eye)?, rest))
}

/// The height that is spelled before the first colon, and what stands behind that colon.
fn height_and_rest(text: &str) -> Option<(u32, &str)>
    ensures { ReadsPrefix decimal IsNumberOf32 colon text.now result }
{
    let (height, rest) = cut(text, ':')?;
    Some((number(height)?, rest))
}

/// The tangent's fraction that is spelled before the first colon, and what stands behind that
/// colon.
fn tangent_and_rest(text: &str) -> Option<((u32, u32), &str)>
    ensures { ReadsPrefix text_of_fraction IsFractionOf32 colon text.now result }
{
    let (fraction, rest) = cut(text, ':')?;
    Some((tangent(fraction)?, rest))
}

/// The numbers of the tangent's fraction, which the text spells as `T/D`.
fn tangent(text: &str) -> Option<(u32, u32)>
    ensures { Reads text_of_fraction IsFractionOf32 text.now result }
{
    let (over, under) = cut(text, '/')?;
    Some((number(over)?, number(under)?))
}

/// The allowed error, and how many planes behind it are read into a prefix of `planes`.
fn allowed_and_planes(text: &str, planes: &mut [Plane; PLANE_LIMIT]) -> Option<(u32, usize)>
    ensures found { IfSome result (λ r. (r.1 ≤ plane_limit) × (text.now
        ≡ join_with_byte colon (decimal r.0 ∷ map text_of_plane (take r.1 planes.new)))) }
    ensures spelled { (allowed : ℕ) (spelled : List Plane) → IsNumberOf32 allowed
        → length spelled ≤ plane_limit → All IsPlaneOf64 spelled
        → text.now ≡ join_with_byte colon (decimal allowed ∷ map text_of_plane spelled)
        → IsSomeAnd result (λ r. (r.0 ≡ allowed) × (take r.1 planes.new ≡ spelled)) }
{
    let (allowed, more) = first_part(text, ':');
    let allowed = number(allowed)?;
    match more {
        Some(more) => Some((allowed, read_planes(more, planes)?)),
        None => Some((allowed, 0)),
    }
}
