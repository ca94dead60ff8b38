//! The words of a command line: which command of the program they are.
#![tactic(auto)]

mod command;
mod command_name;
mod error;
mod places;
mod word;
mod words;

pub use command::Command;
pub use error::WordsError;
pub use words::read_words;

#[cfg(test)]
mod tests;
