//! The queues between the ports of a switch and the switch.
ghost use Rattle.std.specs.Prelude.{◌≡◌, ◌+◌, ◌<◌, ℕ, IfOk, OnOk};
ghost use Rattle.switched_law.specs.SwitchClass.Queues.{IsQueue, Added, AreQueues};

use cargo_core::{Memory, QueueKind, Text};
use std::alloc::Global;
use wire_core::{ActorId, QueueRow};

/// How many entries each queue holds; this project's own.
pub const CAPACITY: u32 = 4;

// A queue from one actor to another.
fn queue(alloc: Global, name: &str, producer: u16, consumer: u16) -> Result<QueueRow, Memory>
    ensures { IfOk result (IsQueue producer consumer) }
{
    Ok(QueueRow {
        name: Text::new(alloc, name)?,
        kind: QueueKind::Net,
        capacity: CAPACITY,
        producer: ActorId(producer),
        consumer: ActorId(consumer),
        region: None,
        offset: 0,
    })
}

// Adds the four queues of a port.
fn add_port(alloc: Global, queues: &mut Vec<QueueRow>, port: u16, switch: u16) -> Result<(), Memory>
    ensures { OnOk result (Added port switch queues.old.items queues.new.items) }
{
    let tx_active = queue(alloc, "tx_active", port, switch)?;
    let tx_free = queue(alloc, "tx_free", switch, port)?;
    let rx_active = queue(alloc, "rx_active", switch, port)?;
    let rx_free = queue(alloc, "rx_free", port, switch)?;
    queues.push(tx_active)?;
    queues.push(tx_free)?;
    queues.push(rx_active)?;
    queues.push(rx_free)?;
    Ok(())
}

/// The queues of a switch of so many ports, whose clients are the actors 0 and so on, and behind
/// them the switch: of port c the queues 4c of its frames and 4c + 1 of its buffers that come back,
/// and then 4c + 2 of the frames that come to it and 4c + 3 of the buffers that it gives.
pub fn switch_queues(alloc: Global, ports: u16) -> Result<Vec<QueueRow>, Memory>
    requires { ports < 1024 }
    ensures { IfOk result (λ queues. AreQueues ports queues.items) }
{
    let mut queues = Vec::new(alloc);
    for port in 0..ports {
        add_port(alloc, &mut queues, port, ports)?;
    }
    Ok(queues)
}
