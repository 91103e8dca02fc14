//! What the classes share: copies of rows, and where the classes begin.
ghost use Rattle.std.specs.Prelude.{◌≡◌, ◌≤◌, IfOk};
ghost use Rattle.cast_core.specs.Sources.{first_serial, first_blk, is_dropping};

use cargo_core::{Memory, Text};
use sdf_plan::{Plan, Policy};
use std::alloc::Global;
use wire_core::QueueRow;

// A copy of a row.
fn copy(alloc: Global, row: &QueueRow) -> Result<QueueRow, Memory>
    ensures { IfOk result (λ r. r ≡ row.now) }
{
    Ok(QueueRow {
        name: Text::new(alloc, row.name.as_str())?,
        kind: row.kind,
        capacity: row.capacity,
        producer: row.producer,
        consumer: row.consumer,
        region: row.region,
        offset: row.offset,
    })
}

/// Copies of rows.
pub fn copies(alloc: Global, rows: &[QueueRow]) -> Result<Vec<QueueRow>, Memory>
    ensures { IfOk result (λ rs. rs.items ≡ rows.now) }
{
    let mut copies = Vec::with_capacity(alloc, rows.len())?;
    for row in rows {
        copies.push(copy(alloc, row)?)?;
    }
    Ok(copies)
}

/// Whether by this policy what comes is dropped where there is no room for it.
pub fn is_dropping(policy: Policy) -> bool
    ensures { result ≡ is_dropping policy }
{
    match policy {
        Policy::Hold => false,
        Policy::Drop => true,
    }
}

/// The number of the first queue of the serial class: the queues of the network stand before it.
pub fn first_serial(plan: &Plan) -> u16
    requires { first_serial plan.now ≤ 65535 }
    ensures { result ≡ first_serial plan.now }
{
    match &plan.net {
        Some(net) => 8 + 6 * net.client.len() as u16,
        None => 0,
    }
}

/// The number of the first queue of the block class: those of the other classes stand before it.
pub fn first_blk(plan: &Plan) -> u16
    requires { first_blk plan.now ≤ 65535 }
    ensures { result ≡ first_blk plan.now }
{
    let first = first_serial(plan);
    match &plan.serial {
        Some(serial) => first + 4 + 2 * serial.client.len() as u16,
        None => first,
    }
}
