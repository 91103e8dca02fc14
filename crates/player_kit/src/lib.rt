//! What each player of turns keeps: the runnable actors, in ascending order, and wires that note
//! each call that an actor makes. Its lemmas are on this list and on what a call adds to what a
//! journal shows.
#![tactic(auto)]

pub mod noted_wires;
mod running;

pub use noted_wires::{Noted, NotedWires, Tag};
pub use running::Running;
