//! The actors of the network class.
ghost use Rattle.std.specs.Prelude.{◌≡◌, ◌<◌, ◌≤◌, ◌+◌, ◌*◌, ◌^◌, ℕ, List, Some, length, slice_get};
ghost use Rattle.std.specs.Prelude.{IfOk, false};
ghost use Rattle.region_layout.specs.Rows.{pools_of};
ghost use Rattle.trace_text.specs.Events.{net_clients, is_source};
ghost use Rattle.trace_text.specs.Limits.{frame_most};
ghost use Rattle.trace_text.specs.Traces.{per_client};
ghost use Rattle.turn_kit.specs.Pipes.{IsNewPipe};
ghost use Rattle.pipe_driver.specs.Drivers.{EachPipe};
ghost use Rattle.eth_driver.specs.Four.{four_pipes};
ghost use Rattle.net_copier.specs.Copying.{IsNewCopier};
ghost use Rattle.net_law.specs.Parts.Numbers.{client_first, device_at, driver_at, receiver_at};
ghost use Rattle.net_law.specs.Parts.Numbers.{copier_at, client_at, policy_at};
ghost use Rattle.net_law.specs.Parts.Playing.{device_part, driver_part, receiver_part};
ghost use Rattle.net_law.specs.Parts.Playing.{copier_part, client_part};
ghost use Rattle.net_law.specs.TxParts.Numbers.{own_pools, sender_at};
ghost use Rattle.net_law.specs.TxParts.Playing.{send_part};
ghost use Rattle.actor_set.specs.Actors.{part_of};
ghost use Rattle.actor_set.specs.StartStates.{IsNew, IsNewReceiving, IsNewLender, IsNewSender};
ghost use Rattle.actor_set.specs.StartStates.{IsNewClientOf};
ghost use Rattle.cast_core.specs.Sources.{client_kind, client_mac, client_program, is_echo};
ghost use Rattle.cast_core.specs.Sources.{pool_at, pools_at, net_drops};
ghost use Rattle.trace_text.specs.declared.class.Class.TheVariants as Of;
ghost use Rattle.layout_laws.specs.Jobs.Jobs as jobs;
ghost use Rattle.cast_core.specs.Casts.{job_part};
ghost use Rattle.cast_core.specs.Hostile.{HasActs};
ghost use Rattle.cast_core.specs.Known.{net_job, net_within};
ghost use Rattle.cast_core.specs.Making.{lease_ends, tx_ends, AreShort, HasNetPool, HasPools};
ghost use Rattle.cast_core.specs.Making.{HasFrames};

use crate::hostile::net_rogue;
use crate::jobs::NetJob;
use crate::pools::{pages, pool_row, ranges, tx_ends};
use crate::shared::is_dropping;
use actor_set::Actor;
use cargo_core::{FrameLog, Memory};
use client_programs::NetClient;
use client_programs::net::NetProgram;
use device_model::EthDevice;
use eth_driver::EthDriver;
use frame_core::{Mac, read_mac};
use net_copier::NetCopier;
use net_virt_rx::{LeaseEnds, NetVirtRx};
use net_virt_tx::NetVirtTx;
use sdf_plan::Plan;
use std::alloc::Global;
use trace_text::{Trace, frame_most, is_net_rogue, is_source, runs};
use wire_core::{PoolRow, QueueId};

/// The address that no client of a valid plan has.
const NO_MAC: Mac = Mac([0, 0, 0, 0, 0, 0]);

// The address of the client of a number.
fn client_mac(plan: &Plan, client: u16) -> Mac
    ensures { result ≡ client_mac plan.now client }
{
    match &plan.net {
        Some(net) if (client as usize) < net.client.len() => {
            match read_mac(net.client.get(client as usize).mac.as_str()) {
                Some(mac) => mac,
                None => NO_MAC,
            }
        }
        _ => NO_MAC,
    }
}

// Whether the client of a number answers the frames that it gets.
fn is_echo(plan: &Plan, client: u16) -> bool
    ensures { result ≡ is_echo plan.now client }
{
    match &plan.net {
        Some(net) if (client as usize) < net.client.len() => runs(
            plan.protection_domain.as_slice(),
            &net.client.get(client as usize).pd,
            "net_echo",
        ),
        _ => false,
    }
}

// The program of the client of a number.
fn client_kind(plan: &Plan, client: u16) -> NetProgram
    ensures { result ≡ client_kind plan.now client }
{
    if is_source(plan, client as u64) {
        NetProgram::Source
    } else if is_echo(plan, client) {
        NetProgram::Echo
    } else {
        NetProgram::Sink
    }
}

/// A copy of some frames.
pub fn copied_frames(alloc: Global, frames: &FrameLog) -> Result<FrameLog, Memory>
    ensures { IfOk result (λ copy. copy ≡ frames.now) }
{
    let mut copy = FrameLog::new(alloc);
    for k in 0..frames.len() {
        copy.push(frames.get(k))?;
    }
    Ok(copy)
}

// The clients as the receiving virtualiser has them.
fn lease_ends(alloc: Global, plan: &Plan, clients: u16) -> Result<Vec<LeaseEnds>, Memory>
    requires { clients ≤ 8 }
    ensures { IfOk result (λ ends. ends.items ≡ per_client clients (lease_ends plan.now)) }
{
    let mut ends = Vec::with_capacity(alloc, clients as usize)?;
    for c in 0..clients {
        let first = 8 + 6 * c;
        ends.push(LeaseEnds {
            mac: client_mac(plan, c),
            active: QueueId(first),
            free: QueueId(first + 1),
        })?;
    }
    Ok(ends)
}

// The device, which waits for buffers.
fn device(alloc: Global, trace: &Trace) -> Result<EthDevice, Memory>
    requires { AreShort trace.now.frames }
    ensures new { IfOk result IsNewReceiving }
    ensures part { IfOk result (λ d. device_part d
        ≡ device_at 0 trace.now.frames false) }
{
    let frames = copied_frames(alloc, trace.frames())?;
    Ok(EthDevice::new(
        alloc,
        QueueId(0),
        QueueId(1),
        QueueId(2),
        QueueId(3),
        frames,
        false,
    ))
}

// The driver.
fn driver() -> EthDriver
    ensures new { EachPipe (λ p. IsNewPipe p.input.queue p.output.queue p)
        (four_pipes result.driver.pipes) }
    ensures part { driver_part (four_pipes result.driver.pipes) ≡ driver_at 0 }
{
    EthDriver::new(
        [QueueId(0), QueueId(1), QueueId(2), QueueId(3)],
        [QueueId(5), QueueId(4), QueueId(6), QueueId(7)],
    )
}

// The receiving virtualiser.
fn receiver(
    alloc: Global,
    plan: &Plan,
    pools: &[PoolRow],
    clients: u16,
) -> Result<NetVirtRx, Memory>
    requires few { clients ≤ 8 }
    requires pool { HasNetPool pools.now 0 }
    ensures new { IfOk result IsNewLender }
    ensures part { IfOk result (λ v. receiver_part v
        ≡ receiver_at 0 (pool_at pools.now 0) (per_client clients (client_mac plan.now))) }
{
    let row = pool_row(pools, 0);
    let pages = pages(alloc, 0, row.buffers, row.size)?;
    let ends = lease_ends(alloc, plan, clients)?;
    Ok(NetVirtRx::new(alloc, QueueId(4), QueueId(5), ends, pages, row.base)?)
}

// The sending virtualiser.
fn sender(alloc: Global, plan: &Plan, pools: &[PoolRow], clients: u16) -> Result<NetVirtTx, Memory>
    requires few { clients ≤ 8 }
    requires longest { frame_most plan.now < 2 ^ 16 }
    requires pools { HasPools pools.now clients }
    ensures new { IfOk result IsNewSender }
    ensures part { IfOk result (λ v. send_part v
        ≡ sender_at 0 (frame_most plan.now) (per_client clients (pools_at pools.now))) }
{
    let ends = tx_ends(alloc, pools, clients)?;
    let ranges = ranges(alloc, &ends)?;
    let most = frame_most(plan) as u16;
    Ok(NetVirtTx::new(alloc, QueueId(6), QueueId(7), ends, ranges, most)?)
}

// Whether frames for the client of a number may be dropped.
fn client_drops(plan: &Plan, client: u16) -> bool
    ensures { result ≡ policy_at (net_drops plan.now) client }
{
    match &plan.net {
        Some(net) if (client as usize) < net.client.len() => {
            is_dropping(net.client.get(client as usize).policy)
        }
        _ => false,
    }
}

// The copier of the client of a number.
fn copier(plan: &Plan, client: u16) -> NetCopier
    requires { client < 8 }
    ensures new { IsNewCopier result.lease_input.queue result.lease_output.queue
        result.buffer_output.queue result.buffer_input.queue
        (policy_at (net_drops plan.now) client) result }
    ensures part { copier_part result
        ≡ copier_at 0 client (policy_at (net_drops plan.now) client) }
{
    let first = 8 + 6 * client;
    NetCopier::new(
        QueueId(first),
        QueueId(first + 1),
        QueueId(first + 2),
        QueueId(first + 3),
        client_drops(plan, client),
    )
}

// The client of a number.
fn client(
    alloc: Global,
    plan: &Plan,
    pools: &[PoolRow],
    trace: &Trace,
    client: u16,
) -> Result<NetClient, Memory>
    requires few { client < 8 }
    requires rx { HasNetPool pools.now (1 + 2 * client) }
    requires tx { HasNetPool pools.now (2 + 2 * client) }
    requires there { client < length trace.now.sends }
    requires short { (frames : List (List ℕ)) → slice_get trace.now.sends client ≡ Some frames
        → AreShort frames }
    ensures new { IfOk result IsNewClientOf }
    ensures part { IfOk result (λ x. client_part x
        ≡ client_at 0 client (client_program plan.now trace.now client)
        (client_mac plan.now client) (own_pools (pools_at pools.now client))) }
{
    let first = 8 + 6 * client;
    let rx = 1 + 2 * client;
    let tx = 2 + 2 * client;
    let rx_row = pool_row(pools, rx);
    let tx_row = pool_row(pools, tx);
    let rx_pages = pages(alloc, rx, rx_row.buffers, rx_row.size)?;
    let tx_pages = pages(alloc, tx, tx_row.buffers, tx_row.size)?;
    let script = copied_frames(alloc, trace.sends(client as u32))?;
    Ok(NetClient::new(
        alloc,
        client_kind(plan, client),
        client_mac(plan, client),
        [QueueId(first + 2), QueueId(first + 3)],
        [QueueId(first + 4), QueueId(first + 5)],
        rx_pages,
        tx_pages,
        script,
    ))
}

// The client of a number, hostile or not.
fn any_client(
    alloc: Global,
    plan: &Plan,
    pools: &[PoolRow],
    trace: &Trace,
    clients: u16,
    number: u16,
) -> Result<Actor, Memory>
    requires few { clients ≤ 8 }
    requires there { number < clients }
    requires rows { pools.now ≡ pools_of plan.now }
    requires pools { HasPools pools.now clients }
    requires frames { HasFrames trace.now clients }
    requires acts { HasActs Of.Net trace.now.net_acts clients }
    ensures new { IfOk result IsNew }
    ensures part { IfOk result (λ a. job_part plan.now trace.now (jobs.NetClient number)
        ≡ Some (part_of a)) }
{
    if is_net_rogue(plan, number as u64) {
        Ok(Actor::Rogue(net_rogue(alloc, pools, trace, clients, number)?))
    } else {
        Ok(Actor::NetClient(client(alloc, plan, pools, trace, number)?))
    }
}

/// The actor of a job of the network class, which has so many clients.
pub fn net_actor(
    alloc: Global,
    plan: &Plan,
    pools: &[PoolRow],
    trace: &Trace,
    clients: u16,
    job: NetJob,
) -> Result<Actor, Memory>
    requires clients { clients ≡ length (net_clients plan.now) }
    requires few { clients ≤ 8 }
    requires rows { pools.now ≡ pools_of plan.now }
    requires longest { frame_most plan.now < 2 ^ 16 }
    requires pools { HasPools pools.now clients }
    requires frames { HasFrames trace.now clients }
    requires acts { HasActs Of.Net trace.now.net_acts clients }
    requires there { net_within clients job }
    ensures new { IfOk result IsNew }
    ensures part { IfOk result (λ a. job_part plan.now trace.now (net_job job)
        ≡ Some (part_of a)) }
{
    match job {
        NetJob::Device => Ok(Actor::EthDevice(device(alloc, trace)?)),
        NetJob::Driver => Ok(Actor::EthDriver(driver())),
        NetJob::Receiver => Ok(Actor::NetVirtRx(receiver(alloc, plan, pools, clients)?)),
        NetJob::Sender => Ok(Actor::NetVirtTx(sender(alloc, plan, pools, clients)?)),
        NetJob::Copier(c) => Ok(Actor::NetCopier(copier(plan, c))),
        NetJob::Client(c) => any_client(alloc, plan, pools, trace, clients, c),
    }
}
