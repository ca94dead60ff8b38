//! What an availability says (OGC 22-025r4, "Availability").

ghost use Rattle.std.specs.Prelude.{◌≡◌};
ghost use Rattle.json_decimal.specs.Handles.{json_of, members_left};
ghost use Rattle.subtree_binary.specs.Availability as spec;

use crate::error::{SubtreeError, SubtreeField};
use crate::members::last;
use crate::naturals::natural;
use crate::views::View;
use json_decimal::{JsonMembers, JsonRef};

/// One value for all bits, or the bits of a view.
#[derive(Clone, Copy)]
pub enum Availability {
    Constant(bool),
    Bitstream(View),
}

/// `constant`, if it is 0 or 1.
fn constant_in(own: JsonMembers<'_>) -> Option<bool>
    ensures { result ≡ spec.constant_in (members_left own.entry) }
{
    match natural(last(own, "constant")?)? {
        0 => Some(false),
        1 => Some(true),
        _ => None,
    }
}

/// The view of `bitstream`, if it is there.
fn view_in(views: &[View], own: JsonMembers<'_>) -> Option<View>
    ensures { result ≡ spec.view_in views.now (members_left own.entry) }
{
    let number = natural(last(own, "bitstream")?)?;
    views.get(number as usize).copied()
}

/// What a value says, which has to be an availability.
pub fn read_availability(
    value: JsonRef<'_>,
    field: SubtreeField,
    views: &[View],
) -> Result<Availability, SubtreeError>
    ensures { result ≡ spec.availability field views.now (json_of value.entry) }
{
    let Some(own) = value.members() else {
        return Err(SubtreeError::Shape { field });
    };
    if let Some(value) = constant_in(own) {
        return Ok(Availability::Constant(value));
    }
    match view_in(views, own) {
        Some(view) => Ok(Availability::Bitstream(view)),
        None => Err(SubtreeError::Shape { field }),
    }
}
