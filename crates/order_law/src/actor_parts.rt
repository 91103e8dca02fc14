//! Actors apart, each with its ends over the rings of their queues, as they run in threads.

mod finishing;
mod laws;
mod opening;
mod parts;
mod seating;
mod worker;

pub use finishing::finish_apart;
pub use laws::opened_law;
pub use opening::open_apart;
pub use parts::{Part, Parts};
pub use seating::{by_number, by_place};
pub use worker::Worker;
