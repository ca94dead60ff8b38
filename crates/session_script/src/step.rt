//! What a line is to a script.

/// What a line is to the script of which it is read.
pub(crate) enum Step {
    /// More lines follow.
    More,
    /// It is the end.
    End,
    /// It isn't in order.
    Bad,
}
