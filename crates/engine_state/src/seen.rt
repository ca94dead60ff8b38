//! The latest views.

use error_test::View;

/// The latest view of a viewer, by its number.
#[derive(Clone, Copy, Debug, PartialEq, Eq)]
pub struct Seen {
    pub viewer: u8,
    pub view: View,
}
