//! Who is who in the classes of a plan, by the ends that the rows give its actors.
ghost use Rattle.std.specs.Prelude.{◌≡◌, ◌<◌, ◌≤◌, ◌+◌, ◌*◌, IfOk, length};
ghost use Rattle.sdf_check.specs.Valid.{Valid};
ghost use Rattle.region_layout.specs.Rows.{queues_of};
ghost use Rattle.system_core.specs.Crews.{IsTaker, AreTakers, blk_crew, net_crew, serial_crew};

use crate::crew::Crew;
use cargo_core::Memory;
use cast_core::{first_blk, first_serial};
use sdf_plan::Plan;
use std::alloc::Global;
use wire_core::QueueRow;

// The place of the queue in which a network client's frames come.
fn frames_place(client: u16) -> usize
    ensures { result ≡ 10 + 6 * client }
{
    10 + 6 * client as usize
}

// The place of the queue in which a serial client's bytes come.
fn bytes_place(first: u16, client: u16) -> usize
    ensures { result ≡ first + 4 + 2 * client }
{
    first as usize + 4 + 2 * client as usize
}

// The place of the queue in which a block client's responses come.
fn responses_place(first: u16, client: u16) -> usize
    ensures { result ≡ first + 5 + 2 * client }
{
    first as usize + 5 + 2 * client as usize
}

// The actor that takes from the queue at a place.
fn taker(rows: &[QueueRow], place: usize) -> u16
    requires { place < length rows.now }
    ensures { IsTaker rows.now place result }
{
    rows[place].consumer.0
}

// The clients of the network class.
fn net_clients(alloc: Global, rows: &[QueueRow], clients: u16) -> Result<Vec<u16>, Memory>
    requires { 8 + 6 * clients ≤ length rows.now }
    ensures { IfOk result (λ numbers. AreTakers rows.now 10 6 clients numbers.items) }
{
    let mut numbers = Vec::with_capacity(alloc, clients as usize)?;
    for c in 0..clients {
        numbers.push(taker(rows, frames_place(c)))?;
    }
    Ok(numbers)
}

// The clients of a serial class with this first queue.
fn serial_clients(
    alloc: Global,
    rows: &[QueueRow],
    first: u16,
    clients: u16,
) -> Result<Vec<u16>, Memory>
    requires { first + 4 + 2 * clients ≤ length rows.now }
    ensures { IfOk result (λ numbers. AreTakers rows.now (first + 4) 2 clients numbers.items) }
{
    let mut numbers = Vec::with_capacity(alloc, clients as usize)?;
    for c in 0..clients {
        numbers.push(taker(rows, bytes_place(first, c)))?;
    }
    Ok(numbers)
}

// The clients of a block class with this first queue.
fn blk_clients(
    alloc: Global,
    rows: &[QueueRow],
    first: u16,
    clients: u16,
) -> Result<Vec<u16>, Memory>
    requires { first + 4 + 2 * clients ≤ length rows.now }
    ensures { IfOk result (λ numbers. AreTakers rows.now (first + 5) 2 clients numbers.items) }
{
    let mut numbers = Vec::with_capacity(alloc, clients as usize)?;
    for c in 0..clients {
        numbers.push(taker(rows, responses_place(first, c)))?;
    }
    Ok(numbers)
}

/// Who is who in the network class of a plan.
pub fn net_crew(alloc: Global, plan: &Plan, rows: &[QueueRow]) -> Result<Crew, Memory>
    requires valid { Valid plan.now }
    requires rows { rows.now ≡ queues_of plan.now }
    ensures { IfOk result (λ crew. crew ≡ net_crew plan.now) }
{
    match &plan.net {
        Some(net) => {
            let clients = net_clients(alloc, rows, net.client.len() as u16)?;
            Ok(Crew::new(Some(taker(rows, 0)), clients))
        }
        None => Ok(Crew::nobody(alloc)),
    }
}

/// Who is who in the serial class of a plan.
pub fn serial_crew(alloc: Global, plan: &Plan, rows: &[QueueRow]) -> Result<Crew, Memory>
    requires valid { Valid plan.now }
    requires rows { rows.now ≡ queues_of plan.now }
    ensures { IfOk result (λ crew. crew ≡ serial_crew plan.now) }
{
    match &plan.serial {
        Some(serial) => {
            let first = first_serial(plan);
            let clients = serial_clients(alloc, rows, first, serial.client.len() as u16)?;
            Ok(Crew::new(Some(taker(rows, first as usize + 1)), clients))
        }
        None => Ok(Crew::nobody(alloc)),
    }
}

/// Who is who in the block class of a plan.
pub fn blk_crew(alloc: Global, plan: &Plan, rows: &[QueueRow]) -> Result<Crew, Memory>
    requires valid { Valid plan.now }
    requires rows { rows.now ≡ queues_of plan.now }
    ensures { IfOk result (λ crew. crew ≡ blk_crew plan.now) }
{
    match &plan.blk {
        Some(blk) => {
            let first = first_blk(plan);
            let clients = blk_clients(alloc, rows, first, blk.client.len() as u16)?;
            Ok(Crew::new(Some(taker(rows, first as usize)), clients))
        }
        None => Ok(Crew::nobody(alloc)),
    }
}
