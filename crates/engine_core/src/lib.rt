//! The engine on one thread, whose state is what its journal leaves.
#![tactic(auto)]

mod arrive;
mod close;
mod contents;
mod ends;
mod engine;
mod error;
mod filling;
mod flights;
mod frames;
mod give_back;
mod held_pins;
mod keeping;
mod look;
mod noting;
mod open;
mod parts;
mod pins;
mod settled;
mod take;
mod views;

pub use engine::Core;
pub use error::{LookError, OpenError, RetryError, TakeError};

#[cfg(test)]
mod tests;
