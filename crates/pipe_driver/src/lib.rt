//! What every driver is: some pipes, whose ends are stepped in turn. It moves entries between a
//! device's queues and the virtualisers', unchanged and one at a time each way. That a driver does
//! no more is sDDF's; the order in which it steps its ends is this project's own.
#![tactic(auto)]

mod driver;
mod pipes;

pub use driver::{PipeDriver, hand_law, row_law};
pub use pipes::{PipeList, Pipes};
