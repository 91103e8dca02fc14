//! Queues, their bells, and the calls on them.
#![tactic(auto)]

mod fates;
mod laws;
mod names;
mod picks;
mod wild;
mod wires;

pub use fates::fate_law;
pub use laws::{bell_law, journal_law, wild_law};
pub use names::{
    ActorId, Answer, BellState, Entry, Event, Op, PoolRow, QueueId, QueueRow, Ringer, Side, Waiter,
};
pub use picks::{next_seed, place_of};
pub use wild::WildWires;
pub use wires::Wires;
