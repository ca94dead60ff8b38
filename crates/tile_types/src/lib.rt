//! The types that all layers share: texts, keys of what is loaded, refinement, and what is wanted.
#![tactic(auto)]

mod job;
mod key;
mod number_list;
mod order;
mod refine;
mod steps;
mod text;
mod want;

pub use job::Job;
pub use key::{Key, KeyList, Kind};
pub use number_list::NumberList;
pub use order::Order;
pub use refine::Refine;
pub use steps::Steps;
pub use text::{SHORT_TEXT, Text, TextList};
pub use want::{TileFacts, Want, WantList};

#[cfg(test)]
mod tests;
