//! What the program can be asked for.

use error_test::View;
use tile_uri::Address;

/// A command with what it is about.
#[derive(Drop)]
pub enum Command {
    /// `cut ROOT VIEW`: the ideal cut of a view.
    Cut {
        /// The address of the root document.
        root: Address,
        view: View,
    },
    /// `tiles ROOT`: the tiles of all documents.
    Tiles {
        /// The address of the root document.
        root: Address,
    },
    /// `meta ROOT`: the metadata of the implicit tiles of all documents.
    Meta {
        /// The address of the root document.
        root: Address,
    },
}
