//! Runs each actor in a thread of its own, over the rings of their queues.
#![tactic(auto)]

mod face;
mod floor;
mod gate;
mod part;
mod run;
mod work;

pub use face::run_threads;
pub use gate::{Gate, OpenGate};
