//! Where the program's texts come from and where its answer goes: shelves of texts, sinks for
//! bytes, and what is read of a text and written of an answer.

mod fault_plan;
mod faults;
mod files;
mod memory_shelf;
mod memory_sink;
mod reading;
mod shelf;
mod sink;
mod sure;
mod writing;

pub use files::{FileShelf, OutSink};
pub use memory_shelf::{MemShelf, NamedText};
pub use memory_sink::MemSink;
pub use reading::{READ_MOST, ReadStop, read_text};
pub use shelf::{Failed, Shelf};
pub use sink::Sink;
pub use sure::{SureShelf, SureSink};
pub use writing::write_text;
