//! The state of an engine: which entries a journal may have, what each of them changes, and what
//! holds after every legal journal. Definitions, and the laws on them.
#![tactic(auto)]

mod entry;
mod entry_view;
mod fault_count;
mod flight;
mod frame_line;
mod gone;
mod held_frame;
pub mod laws;
mod limits;
mod resident;
mod seen;

pub use entry::{Entry, JournalList};
pub use entry_view::EntryView;
pub use fault_count::FaultCount;
pub use flight::Flight;
pub use frame_line::{FrameLine, FrameLineList};
pub use gone::Gone;
pub use held_frame::HeldFrame;
pub use limits::{ATTEMPT_LIMIT, FRAME_LIMIT, JOURNAL_MARGIN};
pub use resident::Resident;
pub use seen::Seen;

#[cfg(test)]
mod tests;
