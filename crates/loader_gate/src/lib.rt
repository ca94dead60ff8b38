//! How a pass loads: desks that give out jobs and take what was loaded, and the load of one job.
#![tactic(auto)]

mod desk;
mod gate;
mod loading;
mod outcome;

pub use desk::JobDesk;
pub use gate::{Gate, OpenGate};
pub use loading::load_one;
pub use outcome::{Loaded, Outcome, TakenJob};

#[cfg(test)]
mod test_desk;
#[cfg(test)]
mod test_source;
#[cfg(test)]
mod tests;
