//! Frames, which have to be given back, and what they show.
#![tactic(auto)]

mod frame;
mod shown;
mod why;

pub use frame::Frame;
pub use shown::{Shown, ShownList};
pub use why::Why;

#[cfg(test)]
mod tests;
