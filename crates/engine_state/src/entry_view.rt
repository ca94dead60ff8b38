//! The view of an entry.

ghost use Rattle.std.specs.Prelude.{◌≡◌, IfOk};

use error_test::View;
use std::alloc::{AllocError, Global};
use std::marker::Model;

/// The view of an entry, in a block of its own: a view takes some 600 bytes, and a journal has many
/// entries of other kinds.
#[derive(Debug, Drop)]
pub struct EntryView {
    view: Box<View>,
}

impl Model for EntryView {
    ghost use Rattle.error_test.specs.Views.{ViewParts};

    ghost Value = { ViewParts };

    ghost view = { λ v. v.view.value };
}

impl EntryView {
    /// A copy of a view.
    pub fn new(alloc: Global, view: &View) -> Result<EntryView, AllocError>
        ensures { IfOk result (λ v. v ≡ view.now) }
    {
        Ok(EntryView {
            view: Box::new(alloc, *view)?,
        })
    }

    /// The view.
    pub fn view(&self) -> &View
        ensures { result.now ≡ self.now }
    {
        &self.view
    }
}
