//! The lock-free ring: a queue for one producer and one consumer, on words and slots that both
//! share. It stands apart so that all that is concurrent about a queue is in one crate, in safe
//! code over `atomic_table`.
//!
//! An example of its calls: `crates/library_examples/src/ring.rt`.
#![tactic(auto)]

mod both;
mod clock;
mod consumer;
mod ended;
mod laws;
mod plays;
mod producer;
mod ring;
mod rule;
mod view;
mod waiting;

pub use both::both_look;
pub use clock::Clock;
pub use consumer::Consumer;
pub use ended::{Ended, finish};
pub use laws::{call_law, ring_law, wild_law};
pub use producer::Producer;
pub use ring::{Ring, open, open_wild};
pub use view::{Half, View};
