//! The queues of a bus.
ghost use Rattle.std.specs.Prelude.{◌≡◌, ◌+◌, ◌<◌, ℕ, IfOk, OnOk};
ghost use Rattle.bus_law.specs.I2cActors.Queues.{IsQueue, Added, AreQueues};

use cargo_core::{Memory, QueueKind, Text};
use std::alloc::Global;
use wire_core::{ActorId, QueueRow};

/// How many entries each queue between a client and the virtualiser holds; this project's own.
pub const CLIENT_CAPACITY: u32 = 2;

/// How many entries each queue between virtualiser, driver and bus holds; this project's own.
pub const SHARED_CAPACITY: u32 = 16;

// A queue from one actor to another.
fn queue(
    alloc: Global,
    name: &str,
    producer: u16,
    consumer: u16,
    capacity: u32,
) -> Result<QueueRow, Memory>
    ensures { IfOk result (IsQueue producer consumer capacity) }
{
    Ok(QueueRow {
        name: Text::new(alloc, name)?,
        kind: QueueKind::Net,
        capacity,
        producer: ActorId(producer),
        consumer: ActorId(consumer),
        region: None,
        offset: 0,
    })
}

// Adds the queues both ways between two actors.
fn add_pair(
    alloc: Global,
    queues: &mut Vec<QueueRow>,
    first: u16,
    second: u16,
    capacity: u32,
) -> Result<(), Memory>
    ensures { OnOk result (Added first second capacity queues.old.items queues.new.items) }
{
    let there = queue(alloc, "req", first, second, capacity)?;
    let back = queue(alloc, "resp", second, first, capacity)?;
    queues.push(there)?;
    queues.push(back)?;
    Ok(())
}

/// The queues of a bus of so many clients, which are the actors 0 and so on, and behind them the
/// virtualiser, the driver and the bus: of client c the queue 2c of its requests and 2c + 1 of its
/// replies, then those of requests and replies between virtualiser and driver, and then those
/// between driver and bus.
pub fn bus_queues(alloc: Global, clients: u16) -> Result<Vec<QueueRow>, Memory>
    requires { clients < 1024 }
    ensures { IfOk result (λ queues. AreQueues clients queues.items) }
{
    let mut queues = Vec::new(alloc);
    for client in 0..clients {
        add_pair(alloc, &mut queues, client, clients, CLIENT_CAPACITY)?;
    }
    let driver = clients + 1;
    add_pair(alloc, &mut queues, clients, driver, SHARED_CAPACITY)?;
    add_pair(alloc, &mut queues, driver, driver + 1, SHARED_CAPACITY)?;
    Ok(queues)
}
