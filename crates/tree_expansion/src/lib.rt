//! The expanded tree: what the documents at hand stand for together (OGC 22-025r4, "External
//! tilesets" and "Implicit Tiling"), and what loading changes in it. Definitions, and the laws on
//! them.
#![tactic(auto)]

pub mod laws;
mod limits;

pub use limits::NESTING_LIMIT;
