//! What the clients of each class must get, by what the device gives and they ask: a network
//! client's frames and an echo's answers, a block client's replies, and serial input as it is
//! switched between clients by the selections that stand in it.
#![tactic(auto)]

pub mod blk_expect;
pub mod net_expect;
pub mod serial_switch;

pub use blk_expect::{judge, replies_of};
pub use net_expect::{answers_for, frames_for, is_for_client};
pub use serial_switch::{Switch, plain_input_of};
