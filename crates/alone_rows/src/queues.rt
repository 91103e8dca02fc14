//! The queues of a bus.
use crate::telling::tell;
use bus_law::i2c_actors::{CLIENT_CAPACITY, SHARED_CAPACITY, bus_queues};
use cargo_core::Memory;
use std::alloc::Global;
use std::io;
use wire_core::QueueRow;

// The queues of a bus of three clients.
fn queues_of_three(alloc: Global) -> Result<Vec<QueueRow>, Memory> {
    Ok(bus_queues(alloc, 3)?)
}

// Whether a queue is in its place, with its producer, its consumer and its capacity.
fn is_at(queues: &[QueueRow], place: usize, ends: (u16, u16), capacity: u32) -> bool {
    match queues.get(place) {
        Some(queue) => {
            (queue.producer.0, queue.consumer.0) == ends && queue.capacity == capacity
        }
        None => false,
    }
}

fn a_bus_of_three_clients_has_ten_queues(alloc: Global) -> Result<bool, Memory> {
    let queues = queues_of_three(alloc)?;
    for (place, ends, capacity) in [
        (0usize, (0u16, 3u16), CLIENT_CAPACITY),
        (5, (3, 2), CLIENT_CAPACITY),
        (6, (3, 4), SHARED_CAPACITY),
        (7, (4, 3), SHARED_CAPACITY),
        (8, (4, 5), SHARED_CAPACITY),
        (9, (5, 4), SHARED_CAPACITY),
    ] {
        if !is_at(&queues, place, ends, capacity) {
            return Ok(false);
        }
    }
    Ok(queues.len() == 10)
}

/// Prints the row of queues.
pub fn print_queues(rt: &HostRuntime) -> io::Result<()> {
    let right = a_bus_of_three_clients_has_ten_queues(rt.alloc());
    tell(rt, "a bus of three clients has ten queues", right)
}
