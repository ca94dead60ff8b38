//! Parts of a list.

/// The part of a list from one place to before another.
#[derive(Clone, Copy)]
pub struct Span {
    pub start: u32,
    pub end: u32,
}
