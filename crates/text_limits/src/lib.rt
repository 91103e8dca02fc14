//! The limits of a bus and of the ports of a switch that were read from texts, for those who play
//! them and needn't know the lines.
#![tactic(auto)]

mod limits;

pub use limits::{bus_limits_law, ports_frames_law, ports_limits_law};
