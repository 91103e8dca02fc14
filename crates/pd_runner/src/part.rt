//! What a thread is given and what it leaves.
use order_law::actor_parts::Worker;
use spsc_queue::{Consumer, Producer, Ring};
use std::snapshot::Snapshot;

/// An actor at work and its ends, each at its queue's place.
#[derive(Drop)]
pub struct Part {
    pub worker: Worker,
    pub producers: Vec<Option<Producer>>,
    pub consumers: Vec<Option<Consumer>>,
}

/// A part after its thread ended, and how many steps it made there. Its worker tells whether one
/// more met want of memory.
#[derive(Drop)]
pub struct Ran {
    pub part: Part,
    pub made: u64,
}

/// What a thread owes: that its part came of this one.
#[derive(Drop)]
pub struct Task<'a> {
    pub rings: &'a [Ring],
    pub was: Snapshot<Part>,
    pub limit: u64,
}
