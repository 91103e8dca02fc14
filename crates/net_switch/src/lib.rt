//! A switch between network clients: it takes the frames that each of its ports sends, copies each
//! of them to the ports that it goes to, and gives the sender's buffer back after the last copy;
//! what it holds of its ports in between is its desk. The forms of its queues are sDDF's; the switch
//! is this project's own.
#![tactic(auto)]

mod ends;
mod switch;
pub mod switch_desk;

pub use ends::{SwitchEnd, SwitchEnds};
pub use switch::{NetSwitch, PortEnds, row_law};
