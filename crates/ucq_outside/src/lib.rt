//! What a program reads and writes through: shelves of files and sinks for bytes, in memory and of the system; and the gates
//! that its workers pass.
#![tactic(auto)]

mod files;
pub mod laws;
mod memory;
mod shelves;
mod streams;

pub use files::{Failed, Gate, NoMemoryOutside, OpenGate, Shelf, Sink};
pub use memory::{MemorySink, ROOM, SureSink};
pub use shelves::{MemoryShelf, SureShelf};
pub use streams::{FileShelf, StandardError, StreamSink};
