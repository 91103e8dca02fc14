//! Traces: what the devices receive and the clients ask for, one line each, and how a text of such
//! lines is read.
//!
//! An example of its calls: `crates/plan_rows/src/examples/trace.rt`.
#![tactic(auto)]

mod acts;
mod class;
mod clients;
mod disk_lines;
mod frame_lines;
mod laws;
mod line;
mod read;
mod reader;
mod request_lines;
mod rogue_lines;
mod stream_lines;
mod trace;

pub use cargo_core::{Act, Ask, Word};
pub use clients::{is_blk_rogue, is_net_rogue, is_serial_rogue, is_source, runs};
pub use frame_lines::frame_most;
pub use laws::{limits_law, shapes_law};
pub use read::{TraceFault, read_trace};
pub use trace::Trace;
