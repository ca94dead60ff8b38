//! A session: an engine on one thread that obeys the lines of a script.
#![tactic(auto)]

mod calls;
mod desk;
mod error;
mod load;
mod own_frame;
mod session;
mod stop;

pub use error::SessionError;
pub use session::{JOURNAL_ROOM, Session};

#[cfg(test)]
mod tests;
