//! The laws that tie the reading of a view to its writing.

ghost use Rattle.std.specs.Prelude.{◌≡◌, ℕ, List, IfOk, IfSome, Some};
ghost use Rattle.error_test.specs.Views.{ViewParts};
ghost use Rattle.session_script.specs.ViewTexts.{IsWithinLimits, text_of_view};
ghost use Rattle.session_script.specs.Views.{view_of};

use crate::view::{read_view, view_text};
use error_test::View;
use std::alloc::{AllocError, Global};

/// A view's text is read back as that view.
pub fn read_back(alloc: Global, view: &View) -> Result<Option<View>, AllocError>
    ensures { IfOk result (λ again. again ≡ Some view.now) }
{
    let text = view_text(alloc, view)?;
    Ok(read_view(text.as_str()))
}

/// A view within the limits is the view of its text, and a text that has a view is that view's.
pub fn views_of_texts()
    ensures spelled { (view : ViewParts) → IsWithinLimits view
        → view_of (text_of_view view) ≡ Some view }
    ensures read { (text : List ℕ) → IfSome (view_of text)
        (λ view. (text ≡ text_of_view view) × IsWithinLimits view) }
{}
