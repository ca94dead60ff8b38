//! Texts of parts with a mark between each two.

ghost use Rattle.std.specs.Prelude.{◌≡◌, ◌<◌, ◌∷◌, [], MatchOption};
ghost use Rattle.session_script.specs.Ascii.{parts_at};
ghost use Rattle.session_script.specs.Readers.{Cuts};

/// What stands before the first such mark and what stands behind it, where there is one.
pub(crate) fn cut(text: &str, mark: char) -> Option<(&str, &str)>
    requires { mark < 128 }
    ensures { Cuts mark text.now result }
{
    text.split_once(mark)
}

/// The first part, and what stands behind its mark, where there is one.
pub(crate) fn first_part(text: &str, mark: char) -> (&str, Option<&str>)
    requires { mark < 128 }
    ensures { MatchOption result.1
        (parts_at mark text.now ≡ result.0.now ∷ [])
        (λ more. parts_at mark text.now ≡ result.0.now ∷ parts_at mark more.now) }
{
    match cut(text, mark) {
        Some((first, more)) => (first, Some(more)),
        None => (text, None),
    }
}
