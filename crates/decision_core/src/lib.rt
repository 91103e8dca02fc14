//! What the words of a call and the texts under their names decide, before anything is played, and
//! the shelves and sinks from which texts are read and to which answers are written.
#![tactic(auto)]

mod alone;
mod deciding;
mod describing;
mod judging;
pub mod shelf_core;
mod showing;
mod status;

pub use deciding::{Decided, decide_words};
pub use judging::judge;
pub use shelf_core::{
    Failed, FileShelf, MemShelf, MemSink, NamedText, OutSink, READ_MOST, ReadStop, Shelf, Sink,
    SureShelf, SureSink, read_text, write_text,
};
pub use showing::{Alone, Asked, Showing};
pub use status::Status;
