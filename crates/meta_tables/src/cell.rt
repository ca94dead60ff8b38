//! Cells.

use tile_types::Text;

/// A cell of a property table (OGC 22-025r4, "Binary table format"), which borrows its text.
#[derive(Clone, Copy, Debug)]
pub enum Cell<'a> {
    /// A whole number.
    Whole { value: i128 },
    /// A truth value.
    Truth { value: bool },
    /// A text.
    Words { text: &'a str },
    /// A value of an enum, by its name.
    Named { name: &'a Text },
    /// A value of an enum that has no name.
    Unnamed { value: i128 },
    /// A value that isn't read.
    Skipped,
}
