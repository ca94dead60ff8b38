//! The texts that are printed of frames, and of looks that have none.
#![tactic(auto)]

mod frame_lines;
mod parts;
mod refusal;
mod show_line;

pub use frame_lines::frame_text;
pub use refusal::refused_text;
pub use show_line::{push_show_line, shown_text};

#[cfg(test)]
mod tests;
