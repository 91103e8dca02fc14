//! Which job an actor has, by the queues at which it stands.
ghost use Rattle.std.specs.Prelude.{◌≡◌, ◌<◌, ◌≤◌, ◌+◌, ◌*◌, ℕ, length, MatchOption};
ghost use Rattle.cast_core.specs.Sources.{first_serial, first_blk};
ghost use Rattle.cast_core.specs.Known.{HasNetJob, HasNoNetJob, IsNoNetClient, HasSerialJob};
ghost use Rattle.cast_core.specs.Known.{HasNoSerialJob, IsNoSerialClient, HasBlkJob, HasRows};
ghost use Rattle.cast_core.specs.Known.{IsKnown};

use crate::shared::{first_blk, first_serial};
use sdf_plan::Plan;
use wire_core::QueueRow;

/// What an actor is in the network class, a client by its number.
#[derive(Clone, Copy, Debug, PartialEq, Eq)]
pub enum NetJob {
    Device,
    Driver,
    Receiver,
    Sender,
    Copier(u16),
    Client(u16),
}

/// What an actor is in the serial class, a client by its number.
#[derive(Clone, Copy, Debug, PartialEq, Eq)]
pub enum SerialJob {
    Device,
    Driver,
    Receiver,
    Sender,
    Client(u16),
}

/// What an actor is in the block class, a client by its number.
#[derive(Clone, Copy, Debug, PartialEq, Eq)]
pub enum BlkJob {
    Device,
    Driver,
    Virtualiser,
    Client(u16),
}

/// What an actor is, in the class to which it belongs.
#[derive(Clone, Copy, Debug, PartialEq, Eq)]
pub enum Job {
    Net(NetJob),
    Serial(SerialJob),
    Blk(BlkJob),
}

// The copier or the client that the actor is, in the network class.
fn net_client_job(rows: &[QueueRow], clients: u16, actor: u16) -> Option<NetJob>
    requires numbered { length rows.now ≤ 65536 }
    requires rows { 8 + 6 * clients ≤ length rows.now }
    ensures { MatchOption result (IsNoNetClient rows.now clients actor)
        (λ job. HasNetJob rows.now clients actor job) }
{
    for c in 0..clients {
        let at = (8 + 6 * c) as usize;
        if rows[at].consumer.0 == actor {
            return Some(NetJob::Copier(c));
        }
        if rows[at + 2].consumer.0 == actor {
            return Some(NetJob::Client(c));
        }
    }
    None
}

// What the actor is in a network class with so many clients, if it is of that class.
fn net_job_of(rows: &[QueueRow], clients: u16, actor: u16) -> Option<NetJob>
    requires numbered { length rows.now ≤ 65536 }
    requires rows { 8 + 6 * clients ≤ length rows.now }
    ensures { MatchOption result (HasNoNetJob rows.now clients actor)
        (λ job. HasNetJob rows.now clients actor job) }
{
    if rows[0].consumer.0 == actor {
        Some(NetJob::Device)
    } else if rows[0].producer.0 == actor {
        Some(NetJob::Driver)
    } else if rows[4].consumer.0 == actor {
        Some(NetJob::Receiver)
    } else if rows[6].producer.0 == actor {
        Some(NetJob::Sender)
    } else {
        net_client_job(rows, clients, actor)
    }
}

// The client that the actor is, in the serial class.
fn serial_client_job(rows: &[QueueRow], first: u16, clients: u16, actor: u16) -> Option<SerialJob>
    requires numbered { length rows.now ≤ 65536 }
    requires rows { first + 4 + 2 * clients ≤ length rows.now }
    ensures { MatchOption result (IsNoSerialClient rows.now first clients actor)
        (λ job. HasSerialJob rows.now first clients actor job) }
{
    for c in 0..clients {
        if rows[(first + 4 + 2 * c) as usize].consumer.0 == actor {
            return Some(SerialJob::Client(c));
        }
    }
    None
}

// What the actor is in a serial class with this first queue and so many clients, if it is of that
// class.
fn serial_job_of(rows: &[QueueRow], first: u16, clients: u16, actor: u16) -> Option<SerialJob>
    requires numbered { length rows.now ≤ 65536 }
    requires rows { first + 4 + 2 * clients ≤ length rows.now }
    ensures { MatchOption result (HasNoSerialJob rows.now first clients actor)
        (λ job. HasSerialJob rows.now first clients actor job) }
{
    let at = first as usize;
    if rows[at].producer.0 == actor {
        Some(SerialJob::Device)
    } else if rows[at].consumer.0 == actor {
        Some(SerialJob::Driver)
    } else if rows[at + 2].consumer.0 == actor {
        Some(SerialJob::Receiver)
    } else if rows[at + 3].producer.0 == actor {
        Some(SerialJob::Sender)
    } else {
        serial_client_job(rows, first, clients, actor)
    }
}

// The block client whose requests an actor puts.
fn blk_client_of(rows: &[QueueRow], first: u16, clients: u16, actor: u16) -> u16
    requires numbered { length rows.now ≤ 65536 }
    requires rows { first + 4 + 2 * clients ≤ length rows.now }
    requires some { (c : ℕ) × HasBlkJob rows.now first clients actor (BlkJob.Client c) }
    ensures { HasBlkJob rows.now first clients actor (BlkJob.Client result) }
{
    for c in 0..clients {
        if rows[(first + 4 + 2 * c) as usize].producer.0 == actor {
            return c;
        }
    }
    unreachable!()
}

// What the actor is in a block class with this first queue and so many clients.
fn blk_job_of(rows: &[QueueRow], first: u16, clients: u16, actor: u16) -> BlkJob
    requires numbered { length rows.now ≤ 65536 }
    requires rows { first + 4 + 2 * clients ≤ length rows.now }
    requires some { (job : BlkJob) × HasBlkJob rows.now first clients actor job }
    ensures { HasBlkJob rows.now first clients actor result }
{
    let at = first as usize;
    if rows[at].consumer.0 == actor {
        BlkJob::Device
    } else if rows[at].producer.0 == actor {
        BlkJob::Driver
    } else if rows[at + 2].producer.0 == actor {
        BlkJob::Virtualiser
    } else {
        BlkJob::Client(blk_client_of(rows, first, clients, actor))
    }
}

/// What the actor of a number is, by the rows of a plan's queues.
pub fn job_of(plan: &Plan, rows: &[QueueRow], actor: u16) -> Job
    requires rows { HasRows plan.now rows.now }
    requires some { (job : Job) × IsKnown plan.now rows.now actor job }
    ensures { IsKnown plan.now rows.now actor result }
{
    if let Some(net) = &plan.net {
        if let Some(job) = net_job_of(rows, net.client.len() as u16, actor) {
            return Job::Net(job);
        }
    }
    if let Some(serial) = &plan.serial {
        let clients = serial.client.len() as u16;
        if let Some(job) = serial_job_of(rows, first_serial(plan), clients, actor) {
            return Job::Serial(job);
        }
    }
    match &plan.blk {
        Some(blk) => {
            let clients = blk.client.len() as u16;
            Job::Blk(blk_job_of(rows, first_blk(plan), clients, actor))
        }
        None => unreachable!(),
    }
}
