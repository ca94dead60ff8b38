//! The planes of a view.

ghost use Rattle.std.specs.Prelude.{◌≡◌, ◌≤◌, List, length, map, take, All, IfSome, IsSomeAnd};
ghost use Rattle.error_test.specs.Views.{plane_limit};
ghost use Rattle.volumes.specs.declared.plane.Plane.{Plane};
ghost use Rattle.session_script.specs.Ascii.{colon, parts_at};
ghost use Rattle.session_script.specs.ViewTexts.{IsPlaneOf64, text_of_plane};

use crate::marks::first_part;
use crate::points::plane;
use error_test::PLANE_LIMIT;
use volumes::Plane;

/// Reads the planes that the text spells, with a colon between each two, into a prefix of
/// `planes`, and says how many they are.
pub(crate) fn read_planes(text: &str, planes: &mut [Plane; PLANE_LIMIT]) -> Option<usize>
    ensures found { IfSome result (λ count. (count ≤ plane_limit)
        × (parts_at colon text.now ≡ map text_of_plane (take count planes.new))) }
    ensures spelled { (spelled : List Plane)
        → length spelled ≤ plane_limit → All IsPlaneOf64 spelled
        → parts_at colon text.now ≡ map text_of_plane spelled
        → IsSomeAnd result (λ count. take count planes.new ≡ spelled) }
{
    let mut rest = text;
    for index in 0..planes.len() {
        let (part, more) = first_part(rest, ':');
        planes[index] = plane(part)?;
        match more {
            Some(more) => rest = more,
            None => return Some(index + 1),
        }
    }
    None
}
