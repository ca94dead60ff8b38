//! What a view keeps and wants, kept exact as contents come and go, without a new walk.
#![tactic(auto)]

mod all_views;
mod awaited;
mod change;
mod content_index;
pub mod exceptions;
mod following;
mod lacking;
pub mod laws;
mod look;
mod name_pair;
mod names;
mod nodes_lacking;
mod note;
mod note_lists;
mod number;
mod settle;
mod settle_all;
mod span;
#[cfg(test)]
mod tests;
mod view_notes;

pub use all_views::{all_become_absent, all_become_resident, all_go, all_go_each, any_keeps};
pub use awaited::Awaited;
pub use change::Change;
pub use cut_core::WantMap;
pub use look::{Look, look_at};
pub use note::{Note, Role};
pub use view_notes::{ViewNotes, wanted_by};
