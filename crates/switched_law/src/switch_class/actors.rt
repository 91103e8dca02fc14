//! The actors of a switch's system, made of its ports: of each port its client, and then the
//! switch.
ghost use Rattle.std.specs.Prelude.{◌≡◌, ◌+◌, ◌*◌, ◌<◌, ◌≤◌, ℕ, List, IfOk, length};
ghost use Rattle.wire_core.specs.declared.names.QueueRow.{QueueRow};
ghost use Rattle.small_system.specs.Standing.{Begins};
ghost use Rattle.switched_law.specs.SwitchClass.Members.{member_means};
ghost use Rattle.switched_law.specs.SwitchClass.Queues.{AreQueues};
ghost use Rattle.switched_law.specs.SwitchClass.Casting.{CanBeMade, AreMade};
ghost use Rattle.switched_law.specs.SwitchClass.Starting.{IsWhole, IsClientOf, ends_of, AreEnds, IsSwitchOf};

use crate::switch_class::Member;
use cargo_core::{FrameLog, Memory, Page, PoolId};
use client_programs::NetClient;
use client_programs::net::NetProgram;
use frame_core::Mac;
use line_text::ports_text::Ports;
use net_switch::{NetSwitch, PortEnds};
use std::alloc::Global;
use wire_core::QueueId;

/// How many buffers each pool has; this project's own.
pub const BUFFERS: u32 = 4;

/// How many bytes each buffer has; this project's own.
pub const SIZE: u32 = 2048;

// All buffers of a pool, in their order.
fn pages(alloc: Global, pool: u16) -> Result<Vec<Page>, Memory>
    ensures { IfOk result (λ pages. IsWhole pool pages.items) }
{
    let mut pages = Vec::with_capacity(alloc, BUFFERS as usize)?;
    for no in 0..BUFFERS {
        pages.push(Page::new(alloc, PoolId(pool), no, SIZE)?)?;
    }
    Ok(pages)
}

// A copy of some frames.
fn copied(alloc: Global, frames: &FrameLog) -> Result<FrameLog, Memory>
    ensures { IfOk result (λ copy. copy ≡ frames.now) }
{
    let mut copy = FrameLog::new(alloc);
    for k in 0..frames.len() {
        copy.push(frames.get(k))?;
    }
    Ok(copy)
}

// The client of a port.
fn client(alloc: Global, ports: &Ports, port: u16) -> Result<NetClient, Memory>
    requires can { CanBeMade ports.now }
    requires there { port < length ports.now.macs }
    ensures { IfOk result (IsClientOf ports.now port) }
{
    let mac = *ports.macs.get(port as usize);
    let script = copied(alloc, ports.sends.get(port as usize))?;
    let rx = pages(alloc, 2 * port)?;
    let tx = pages(alloc, 2 * port + 1)?;
    Ok(NetClient::new(
        alloc,
        NetProgram::Source,
        mac,
        [QueueId(4 * port + 2), QueueId(4 * port + 3)],
        [QueueId(4 * port), QueueId(4 * port + 1)],
        rx,
        tx,
        script,
    ))
}

// A port as the switch has it.
fn ends_of(port: u16, mac: Mac) -> PortEnds
    requires { port < 8 }
    ensures { result ≡ ends_of port mac }
{
    PortEnds {
        mac,
        tx: [QueueId(4 * port), QueueId(4 * port + 1)],
        rx: [QueueId(4 * port + 2), QueueId(4 * port + 3)],
    }
}

// The ports as the switch has them.
fn all_ends(alloc: Global, macs: &[Mac]) -> Result<Vec<PortEnds>, Memory>
    requires { length macs.now ≤ 8 }
    ensures { IfOk result (λ ends. AreEnds macs.now (length macs.now) ends.items) }
{
    let mut ends = Vec::with_capacity(alloc, macs.len())?;
    for port in 0..macs.len() {
        ends.push(ends_of(port as u16, macs[port]))?;
    }
    Ok(ends)
}

// The switch.
fn switch(alloc: Global, ports: &Ports) -> Result<NetSwitch, Memory>
    requires { CanBeMade ports.now }
    ensures { IfOk result (IsSwitchOf ports.now) }
{
    let ends = all_ends(alloc, ports.macs.as_slice())?;
    NetSwitch::new(alloc, ends)
}

/// The actors of a switch's system: the clients of the ports, in their order, and then the switch.
/// With the queues of so many ports a play may begin with them.
pub fn switch_actors(alloc: Global, ports: &Ports) -> Result<Vec<Member>, Memory>
    requires { CanBeMade ports.now }
    ensures made { IfOk result (λ actors. AreMade ports.now actors.items) }
    ensures begins { (rows : List QueueRow) → AreQueues (length ports.now.macs) rows
        → IfOk result (λ actors. Begins member_means rows actors.items) }
{
    let count = ports.macs.len();
    let mut actors = Vec::with_capacity(alloc, count + 1)?;
    for port in 0..count {
        actors.push(Member::Client(client(alloc, ports, port as u16)?))?;
    }
    actors.push(Member::Switch(switch(alloc, ports)?))?;
    Ok(actors)
}
