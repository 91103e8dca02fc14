//! A switch between clients, as it is played: how many steps are enough for it, its play, and the
//! text of what the play reports.
#![tactic(auto)]

mod bounding;
pub mod switch_system;
mod writing;

pub use crate::switch_system::play_ports;
pub use bounding::ports_bound;
pub use writing::write_ports;
