//! The ends of one actor over rings. It stands between the ring and the actors, so that no actor
//! names a ring.
//!
//! An example of its calls: `crates/library_examples/src/seats.rt`.
#![tactic(auto)]

mod laws;
mod places;
mod putting;
mod seats;

pub use laws::seats_law;
pub use seats::Seats;
