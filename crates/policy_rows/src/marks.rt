//! What was dropped of the bytes for a serial client, as the looks in a journal tell.

use cargo_core::Memory;
use region_layout::Layout;
use sdf_plan::{Plan, Policy};
use std::alloc::Global;
use wire_core::{Answer, Entry, Op, QueueId};

/// Whether a serial client's bytes are dropped while its queue is full.
pub fn drops(plan: &Plan, client: usize) -> bool {
    let Some(serial) = &plan.serial else {
        return false;
    };
    match serial.client.as_slice().get(client) {
        Some(client) => client.policy == Policy::Drop,
        None => false,
    }
}

// The number of the queue of a name.
fn queue_named(layout: &Layout, name: &str) -> Option<QueueId> {
    let mut number = 0u16;
    for row in layout.queues() {
        if row.name.as_str() == name {
            return Some(QueueId(number));
        }
        number = number.saturating_add(1);
    }
    None
}

// What came to a queue, one after another, is a byte that was put or one that was dropped: one for
// which a look for room answered no. Those that were dropped are left out, and what didn't come yet
// stays.
fn without_dropped(
    alloc: Global,
    journal: &[Entry],
    queue: QueueId,
    input: &[u8],
) -> Result<Vec<u8>, Memory> {
    let mut left = Vec::new(alloc);
    let mut came = 0;
    for entry in journal {
        let event = entry.event;
        let is_put = event.op == Op::Put;
        let is_dropped = event.op == Op::Room && event.answer == Answer::No;
        if event.queue == queue && (is_put || is_dropped) && came < input.len() {
            if is_put {
                left.push(input[came])?;
            }
            came += 1;
        }
    }
    for k in came..input.len() {
        left.push(input[k])?;
    }
    Ok(left)
}

/// Of the bytes that the trace gives a client those that weren't dropped.
pub fn left_of(
    alloc: Global,
    plan: &Plan,
    layout: &Layout,
    journal: &[Entry],
    client: usize,
    input: &[u8],
) -> Result<Vec<u8>, Memory> {
    let name = format!(in alloc; "serial.{client}.rx")?;
    match queue_named(layout, name.as_str()) {
        Some(queue) if drops(plan, client) => without_dropped(alloc, journal, queue, input),
        _ => Ok(Vec::from_slice(alloc, input)?),
    }
}
