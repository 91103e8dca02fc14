//! One type for the actors of all kinds, the laws that tie what an actor keeps and does to what is
//! said of its part, what a system takes over from actors that were at work elsewhere, and what is
//! said of hostile clients.
#![tactic(auto)]

mod actor;
pub mod adopting;
mod disk;
pub mod laws;
pub mod rogues;
pub mod scenes;

pub use actor::{Actor, hand_law, row_law};
pub use disk::Disk;
