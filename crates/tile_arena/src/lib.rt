//! The expanded tree of a store's documents, of which only what was opened is held.
#![tactic(auto)]

mod arena;
mod children;
mod held;

pub use arena::Arena;

#[cfg(test)]
mod tests;
