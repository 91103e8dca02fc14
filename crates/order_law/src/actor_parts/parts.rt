//! Actors apart, each with its ends.
use crate::actor_parts::worker::Worker;
use spsc_queue::{Consumer, Producer, Ring};
use wire_core::QueueId;

/// An actor at work, and its producing and consuming ends, each beside the number of its queue.
pub type Part = (Worker, Vec<(QueueId, Producer)>, Vec<(QueueId, Consumer)>);

/// The rings of all queues and the actors with their ends, both in the order of the layout: the
/// number of a queue is the place of its ring.
#[derive(Drop)]
pub struct Parts {
    pub rings: Vec<Ring>,
    pub actors: Vec<Part>,
}
