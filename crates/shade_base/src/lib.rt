//! What every part of the checker speaks of: places in a text, decimal numbers, severities and the program's status; and what
//! it reads from and writes to, a shelf of named texts and a sink of bytes, each with a count of its faults.
#![tactic(auto)]

mod decimal;
mod lines;
mod memory_shelf;
mod memory_sink;
mod outside;
mod place;
mod severity;
mod shelf;
mod sink;
mod status;

pub use decimal::decimal_value;
pub use lines::{place_after, place_at};
pub use memory_shelf::MemoryShelf;
pub use memory_sink::MemorySink;
pub use outside::{FileShelf, StdSink};
pub use place::Place;
pub use severity::Severity;
pub use shelf::{Shelf, ShelfRefusal};
pub use sink::{Failed, Sink};
pub use status::Status;
