//! The program as one call, over a shelf of texts and a sink for the answer, with a run of its own
//! for a trace that is run in threads.
//!
//! An example of its calls: `crates/program_rows/src/example.rt`.
#![tactic(auto)]

mod alone;
mod answering;
mod hosting;
mod isolation;
mod played;
mod playing;
mod serving;
mod sure;
pub mod system_run;

pub use command_words::begins_run;
pub use decision_core::shelf_core::{
    Failed, FileShelf, MemShelf, MemSink, NamedText, OutSink, READ_MOST, ReadStop, Shelf, Sink,
    SureShelf, SureSink, read_text, write_text,
};
pub use decision_core::{Asked, Showing, Status, judge};
pub use hosting::serve_host;
pub use i2c_text::{BusReply, BusReport, BusStatus};
pub use isolation::isolation_law;
pub use line_text::ports_text::PortReport;
pub use pd_runner::{Gate, OpenGate};
pub use played::Played;
pub use sdf_model::TEXT_MOST;
pub use serving::{serve, serve_alone};
pub use sure::serve_surely;
pub use system_core::System;
