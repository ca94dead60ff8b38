//! Property tables of subtrees (OGC 22-025r4, "Property tables").
#![tactic(auto)]

mod cell;
mod cells;
mod checks;
mod column;
mod columns;
mod error;
mod limits;
mod named_values;
mod numbers;
mod offset_type;
mod offsets;
mod reading;
mod rows;
mod stored;
mod table;
mod views;
mod written;

pub use cell::Cell;
pub use error::TableError;
pub use limits::NUMBER_LIMIT;
pub use rows::{row_of, tile_table};
pub use table::Table;

#[cfg(test)]
mod tests;
