//! The actors of the serial class.
ghost use Rattle.std.specs.Prelude.{◌≡◌, ◌<◌, ◌≤◌, ◌+◌, ◌*◌, [], Some, length, slice_get};
ghost use Rattle.std.specs.Prelude.{unwrap_or, map, IfOk};
ghost use Rattle.trace_text.specs.Events.{serial_clients};
ghost use Rattle.actor_set.specs.Actors.{part_of, numbers};
ghost use Rattle.actor_set.specs.Parts.{UartPart, DriverPart, RxPart, TxPart, ClientPart};
ghost use Rattle.actor_set.specs.StartStates.{IsNew};
ghost use Rattle.cast_core.specs.Sources.{every_second, first_serial, drops_of};
ghost use Rattle.cast_core.specs.Sources.{serial_drops};
ghost use Rattle.trace_text.specs.declared.class.Class.TheVariants as Of;
ghost use Rattle.layout_laws.specs.Jobs.Jobs as jobs;
ghost use Rattle.cast_core.specs.Casts.{job_part};
ghost use Rattle.cast_core.specs.Hostile.{HasActs};
ghost use Rattle.cast_core.specs.Known.{serial_job, serial_within};

use crate::hostile::serial_rogue;
use crate::jobs::SerialJob;
use crate::shared::{first_serial, is_dropping};
use actor_set::Actor;
use cargo_core::{Bytes, Memory};
use client_programs::SerialClient;
use device_model::UartDevice;
use sdf_plan::{Plan, SerialClient as Taker};
use serial_virt::{SerialVirtRx, SerialVirtTx};
use std::alloc::Global;
use trace_text::{Trace, is_serial_rogue};
use uart_driver::UartDriver;
use wire_core::QueueId;

// So many queues, every second one from a number on.
fn every_second(alloc: Global, first: u16, count: u16) -> Result<Vec<QueueId>, Memory>
    requires { first + 2 * count ≤ 65537 }
    ensures { IfOk result (λ qs. numbers qs.items ≡ every_second first count) }
{
    let mut queues = Vec::with_capacity(alloc, count as usize)?;
    for k in 0..count {
        queues.push(QueueId(first + 2 * k))?;
    }
    Ok(queues)
}

// The device.
fn device(alloc: Global, first: u16, trace: &Trace) -> Result<UartDevice, Memory>
    requires { first < 65535 }
    ensures new { IfOk result (λ d. IsNew (Actor.UartDevice d)) }
    ensures part { IfOk result (λ d.
        part_of (Actor.UartDevice d) ≡ UartPart first (first + 1) trace.now.input) }
{
    let input = Bytes::from_slice(alloc, trace.input())?;
    Ok(UartDevice::new(alloc, QueueId(first), QueueId(first + 1), input))
}

// The driver.
fn driver(first: u16) -> UartDriver
    requires { first + 3 ≤ 65535 }
    ensures new { IsNew (Actor.UartDriver result) }
    ensures part { part_of (Actor.UartDriver result)
        ≡ DriverPart first (first + 1) (first + 2) (first + 3) }
{
    UartDriver::new(
        QueueId(first),
        QueueId(first + 1),
        QueueId(first + 2),
        QueueId(first + 3),
    )
}

// Of each client its queue, every second one from a number on, and whether its bytes may be dropped.
fn takers(
    alloc: Global,
    clients: &[Taker],
    first: u16,
    count: u16,
) -> Result<Vec<(QueueId, bool)>, Memory>
    requires clients { count ≡ length clients.now }
    requires numbered { first + 2 * count ≤ 65537 }
    ensures queues { IfOk result (λ ts.
        numbers (map (λ t. t.0) ts.items) ≡ every_second first count) }
    ensures drops { IfOk result (λ ts. map (λ t. t.1) ts.items ≡ drops_of clients.now) }
{
    let mut takers = Vec::with_capacity(alloc, count as usize)?;
    for k in 0..count {
        let drops = is_dropping(clients[k as usize].policy);
        takers.push((QueueId(first + 2 * k), drops))?;
    }
    Ok(takers)
}

// The receiving virtualiser.
fn receiver(alloc: Global, plan: &Plan, first: u16, clients: u16) -> Result<SerialVirtRx, Memory>
    requires clients { clients ≡ length (serial_clients plan.now) }
    requires some { 0 < clients }
    requires few { clients ≤ 8 }
    requires numbered { first + 4 + 2 * clients ≤ 65536 }
    ensures new { IfOk result (λ v. IsNew (Actor.SerialVirtRx v)) }
    ensures part { IfOk result (λ v. part_of (Actor.SerialVirtRx v)
        ≡ RxPart (first + 2) (every_second (first + 4) clients) (serial_drops plan.now)) }
{
    match &plan.serial {
        Some(serial) => {
            let takers = takers(alloc, serial.client.as_slice(), first + 4, clients)?;
            Ok(SerialVirtRx::new(alloc, QueueId(first + 2), takers)?)
        }
        None => unreachable!(),
    }
}

// The sending virtualiser.
fn sender(alloc: Global, first: u16, clients: u16) -> Result<SerialVirtTx, Memory>
    requires some { 0 < clients }
    requires few { clients ≤ 8 }
    requires numbered { first + 4 + 2 * clients ≤ 65536 }
    ensures new { IfOk result (λ v. IsNew (Actor.SerialVirtTx v)) }
    ensures part { IfOk result (λ v.
        part_of (Actor.SerialVirtTx v) ≡ TxPart (first + 3) (every_second (first + 5) clients)) }
{
    let queues = every_second(alloc, first + 5, clients)?;
    Ok(SerialVirtTx::new(alloc, QueueId(first + 3), queues)?)
}

// The client of a number.
fn client(alloc: Global, first: u16, client: u16, trace: &Trace) -> Result<SerialClient, Memory>
    requires numbered { first + 5 + 2 * client ≤ 65535 }
    requires says { client < length trace.now.says }
    ensures new { IfOk result (λ c. IsNew (Actor.SerialClient c)) }
    ensures part { IfOk result (λ c. part_of (Actor.SerialClient c)
        ≡ ClientPart (first + 4 + 2 * client) (first + 5 + 2 * client)
        (unwrap_or (slice_get trace.now.says client) [])) }
{
    let script = Bytes::from_slice(alloc, trace.says(client as u32))?;
    let rx = first + 4 + 2 * client;
    Ok(SerialClient::new(alloc, QueueId(rx), QueueId(rx + 1), script))
}

// The client of a number, hostile or not.
fn any_client(
    alloc: Global,
    plan: &Plan,
    trace: &Trace,
    clients: u16,
    number: u16,
) -> Result<Actor, Memory>
    requires few { clients ≤ 8 }
    requires there { number < clients }
    requires numbered { first_serial plan.now + 4 + 2 * clients ≤ 65536 }
    requires says { length trace.now.says ≡ clients }
    requires acts { HasActs Of.Serial trace.now.serial_acts clients }
    ensures new { IfOk result IsNew }
    ensures part { IfOk result (λ a. job_part plan.now trace.now (jobs.SerialClient number)
        ≡ Some (part_of a)) }
{
    let first = first_serial(plan);
    if is_serial_rogue(plan, number as u64) {
        Ok(Actor::Rogue(serial_rogue(alloc, first, trace, clients, number)?))
    } else {
        Ok(Actor::SerialClient(client(alloc, first, number, trace)?))
    }
}

/// The actor of a job of the serial class, which has so many clients.
pub fn serial_actor(
    alloc: Global,
    plan: &Plan,
    trace: &Trace,
    clients: u16,
    job: SerialJob,
) -> Result<Actor, Memory>
    requires clients { clients ≡ length (serial_clients plan.now) }
    requires some { 0 < clients }
    requires few { clients ≤ 8 }
    requires numbered { first_serial plan.now + 4 + 2 * clients ≤ 65536 }
    requires says { length trace.now.says ≡ clients }
    requires acts { HasActs Of.Serial trace.now.serial_acts clients }
    requires there { serial_within clients job }
    ensures new { IfOk result IsNew }
    ensures part { IfOk result (λ a. job_part plan.now trace.now (serial_job job)
        ≡ Some (part_of a)) }
{
    let first = first_serial(plan);
    match job {
        SerialJob::Device => Ok(Actor::UartDevice(device(alloc, first, trace)?)),
        SerialJob::Driver => Ok(Actor::UartDriver(driver(first))),
        SerialJob::Receiver => Ok(Actor::SerialVirtRx(receiver(alloc, plan, first, clients)?)),
        SerialJob::Sender => Ok(Actor::SerialVirtTx(sender(alloc, first, clients)?)),
        SerialJob::Client(c) => any_client(alloc, plan, trace, clients, c),
    }
}
