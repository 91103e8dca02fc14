//! Worked rows of what actors stand on: entries, buffers and lists; all queues of a system in lists,
//! and rings that go on as queues; an actor over rings, whose other ends are worked by hand; and of
//! the block class partitions, judgements and replies. And what a hand does at queues in lists,
//! for rows of actors that stand there alone.
#![tactic(auto)]

#[cfg(test)]
mod blk;
#[cfg(test)]
mod cargo_tests;
mod hand;
mod rows;
#[cfg(test)]
mod seats;
#[cfg(test)]
mod wires_tests;

pub use hand::{get, get_entry, give, put_in};
pub use rows::{one_or_two, queues, queues_of, row};
