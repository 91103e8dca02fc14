//! A bus that clients share by claims, as it is played: how many steps are enough for it, its play,
//! and the text of what the play reports.
#![tactic(auto)]

mod bounding;
mod playing;
mod writing;

pub use bounding::bus_bound;
pub use playing::play_bus;
pub use writing::write_bus;
