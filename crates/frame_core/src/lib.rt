//! The addresses of stations, and the header of an Ethernet frame: destination, source and type.
#![tactic(auto)]

mod frame;
mod mac;

pub use frame::{destination, is_for, is_frame, turn_round};
pub use mac::{Mac, read_mac};
