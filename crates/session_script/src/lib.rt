//! Scripts of sessions, and the text of a view, which is read and written in one spelling.
#![tactic(auto)]

mod law;
mod line;
mod lines_read;
mod marks;
mod number;
mod pieces;
mod planes;
mod points;
mod reading;
mod script;
mod script_line;
#[cfg(test)]
mod script_tests;
mod step;
#[cfg(test)]
mod tests;
mod view;

pub use law::{read_back, views_of_texts};
pub use reading::read_script;
pub use script::{Script, ScriptError};
pub use script_line::{LineList, ScriptLine, VIEWERS};
pub use view::{read_view, view_text};
