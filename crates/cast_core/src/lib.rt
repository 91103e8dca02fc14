//! The actors of a plan: what each is made of, by its job, and how all of them are made from the
//! plan, its layout and a trace. It stands below the laws of actors and the system that plays them.
#![tactic(auto)]

mod actors;
mod block;
mod hostile;
mod jobs;
mod network;
mod pools;
mod serial;
mod shared;

pub use actors::cast;
pub use hostile::{calm_law, has_no_rogue};
pub use jobs::{BlkJob, Job, NetJob, SerialJob};
pub use network::copied_frames;
pub use shared::{copies, first_blk, first_serial};
