//! The outside of the engine, as the layers above see it: sources that bytes are fetched from and sinks
//! that bytes are put to. The types that all layers share are handed on.
#![tactic(auto)]

mod counts;
mod files;
mod library;
mod memory_sink;
mod memory_source;
mod paths;
mod reading;
mod sink;
mod source;
mod standard_output;
mod steady_source;

pub use files::DirSource;
pub use library::{FileList, NamedFile};
pub use memory_sink::MemorySink;
pub use memory_source::MemorySource;
pub use sink::{PutError, Sink};
pub use source::{FetchError, LibraryName, Source};
pub use standard_output::StdSink;
pub use steady_source::SteadySource;
pub use tile_types::{
    Job, Key, KeyList, Kind, NumberList, Order, Refine, Steps, Text, TextList, TileFacts, Want,
    WantList,
};

#[cfg(test)]
mod tests;
