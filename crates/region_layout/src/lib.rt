//! Where the regions of a plan lie, which queues and pools stand in them, and who acts.
//!
//! An example of its calls: `crates/plan_rows/src/examples/layout.rt`.
#![tactic(auto)]

mod actors;
mod bases;
mod layout;
mod pools;
mod queues;
mod texts;

pub use layout::{Layout, lay_out};
pub use wire_core::{PoolRow, QueueRow};
