//! A client of a bus: it puts its requests in their order, each in one of its two buffers, and
//! records the replies that come.

mod asking;
mod client;
mod hand;
mod replies;

pub use asking::Asking;
pub use client::{BusClient, client_law};
pub use hand::Hand;
pub use replies::Replies;
