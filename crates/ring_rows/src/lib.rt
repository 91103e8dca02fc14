//! The ring, worked by hand: on one thread call by call, and by two threads. It stands apart, since
//! the ring itself is proved without tests.
#![tactic(auto)]

mod bells;
mod hand;
mod pausing;
#[cfg(test)]
mod tests;
mod wild;
#[cfg(test)]
mod wild_tests;

pub use bells::{get, give, send_by_bells, take_by_bells};
pub use hand::{byte_ring, give_up, offer, poll, send, take};
pub use pausing::pause;
pub use wild::{scribble, send_wildly, wild_byte_ring};
