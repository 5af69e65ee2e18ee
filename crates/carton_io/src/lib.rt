//! Shelves, where files are read by name, and sinks, where output is put. Both count their faults.
#![tactic(auto)]

mod file_shelf;
mod file_source;
mod memory_shelf;
mod memory_sink;
mod out_sink;
mod shelf;
mod sink;
mod steady;

pub use file_shelf::FileShelf;
pub use file_source::FileSource;
pub use memory_shelf::{MemoryShelf, NamedFile};
pub use memory_sink::MemorySink;
pub use out_sink::OutSink;
pub use shelf::{Shelf, ShelfError};
pub use sink::{Sink, SinkFault};
pub use steady::{SteadyShelf, SteadySink};
