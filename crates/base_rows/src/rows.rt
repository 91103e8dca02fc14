//! Rows of queues for one actor, as a layout would give them.

ghost use Rattle.std.specs.Prelude.{◌≡◌, IfOk};
ghost use Rattle.cargo_core.specs.Capacities.{IsCapacity};
ghost use Rattle.base_rows.specs.Hands.{AreByteQueues, AreQueues};

use cargo_core::{Memory, QueueKind, Text};
use plain_wires::World;
use std::alloc::Global;
use wire_core::{ActorId, QueueRow};

/// A queue of a kind from actor 0 to actor 1, which holds up to `capacity` entries.
pub fn row(alloc: Global, kind: QueueKind, capacity: u32) -> Result<QueueRow, Memory>
    ensures kind { IfOk result (λ r. r.kind ≡ kind) }
    ensures capacity { IfOk result (λ r. r.capacity ≡ capacity) }
{
    Ok(QueueRow {
        name: Text::new(alloc, "queue")?,
        kind,
        capacity,
        producer: ActorId(0),
        consumer: ActorId(1),
        region: None,
        offset: 0,
    })
}

/// One or two entries, the smallest capacities.
pub fn one_or_two(two: bool) -> u32
    ensures { IsCapacity result }
{
    if two { 2 } else { 1 }
}

/// So many queues of a kind in their start state, each of which holds up to `capacity` entries.
pub fn queues_of(alloc: Global, kind: QueueKind, count: u16, capacity: u32) -> Result<World, Memory>
    requires { IsCapacity capacity }
    ensures { IfOk result (λ w. AreQueues kind count w) }
{
    let mut rows = Vec::new(alloc);
    for _place in 0..count {
        rows.push(row(alloc, kind, capacity)?)?;
    }
    World::new(alloc, &rows)
}

/// So many queues of bytes in their start state, each of which holds up to `capacity` of them.
pub fn queues(alloc: Global, count: u16, capacity: u32) -> Result<World, Memory>
    requires { IsCapacity capacity }
    ensures { IfOk result (λ w. AreByteQueues count w) }
{
    queues_of(alloc, QueueKind::Byte, count, capacity)
}
