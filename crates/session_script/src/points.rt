//! Points and planes, as rows of numbers with a comma between each two.

ghost use Rattle.session_script.specs.Readers.{Reads};
ghost use Rattle.session_script.specs.ViewTexts.{IsPlaneOf64, IsPointOf64};
ghost use Rattle.session_script.specs.ViewTexts.{text_of_plane, text_of_point};

use crate::number::{number_and_rest, signed_number};
use fixed_geometry::Point;
use volumes::Plane;

/// The point that the text spells as `x,y,z`.
pub(crate) fn point(text: &str) -> Option<Point>
    ensures { Reads text_of_point IsPointOf64 text.now result }
{
    let (x, rest) = number_and_rest(text)?;
    let (y, rest) = number_and_rest(rest)?;
    let z = signed_number(rest)?;
    Some(Point { x, y, z })
}

/// The plane that the text spells as `nx,ny,nz,d`.
pub(crate) fn plane(text: &str) -> Option<Plane>
    ensures { Reads text_of_plane IsPlaneOf64 text.now result }
{
    let (x, rest) = number_and_rest(text)?;
    let (y, rest) = number_and_rest(rest)?;
    let (z, rest) = number_and_rest(rest)?;
    let d = signed_number(rest)?;
    Some(Plane {
        n: Point { x, y, z },
        d,
    })
}
