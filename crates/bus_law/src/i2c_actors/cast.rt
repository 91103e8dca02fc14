//! The actors of a bus as they are made.
ghost use Rattle.std.specs.Prelude.{◌≡◌, ◌<◌, ◌^◌, ◌+◌, ◌*◌, ℕ, List, IfOk, length};
ghost use Rattle.wire_core.specs.declared.names.QueueRow.{QueueRow};
ghost use Rattle.small_system.specs.Standing.{Begins};
ghost use Rattle.i2c_virt.specs.I2cClient.Asking.{AreRequests};
ghost use Rattle.bus_law.specs.I2cActors.Members.{member_means};
ghost use Rattle.bus_law.specs.I2cActors.Queues.{AreQueues};
ghost use Rattle.bus_law.specs.I2cActors.Casting.{IsFitBus, AreEverySecond, AreMade};
ghost use Rattle.bus_law.specs.I2cActors.Starting.{IsFresh, AreFresh, AreNew};

use crate::i2c_actors::Member;
use cargo_core::{Bytes, Memory, PoolId, Series};
use i2c_text::{Bus, BusAsk};
use i2c_virt::i2c_client::BusClient;
use i2c_virt::{BusDevice, BusDriver, I2cVirt};
use std::alloc::Global;
use wire_core::QueueId;

// A copy of a request.
fn copy_ask(alloc: Global, ask: &BusAsk) -> Result<BusAsk, Memory>
    ensures { IfOk result (λ copy. copy ≡ ask.now) }
{
    match ask {
        BusAsk::Claim(address) => Ok(BusAsk::Claim(*address)),
        BusAsk::Read(address, count) => Ok(BusAsk::Read(*address, *count)),
        BusAsk::Write(address, bytes) => {
            let written = Bytes::from_slice(alloc, bytes.as_slice())?;
            Ok(BusAsk::Write(*address, written))
        }
    }
}

// A copy of requests.
fn copy_asks(alloc: Global, asks: &[BusAsk]) -> Result<Series<BusAsk>, Memory>
    ensures { IfOk result (λ copies. copies ≡ asks.now) }
{
    let mut copies = Vec::with_capacity(alloc, asks.len())?;
    for ask in asks {
        copies.push(copy_ask(alloc, ask)?)?;
    }
    Ok(Series::from_vec(copies))
}

// A client with these requests, by its place among the actors.
fn client(alloc: Global, place: u16, asks: &[BusAsk]) -> Result<BusClient, Memory>
    requires few { place < 1024 }
    requires good { AreRequests asks.now }
    requires short { length asks.now < 2 ^ 32 }
    ensures { IfOk result (IsFresh place asks.now) }
{
    let script = copy_asks(alloc, asks)?;
    BusClient::new(
        alloc,
        QueueId(2 * place),
        QueueId(2 * place + 1),
        PoolId(place),
        script,
    )
}

// The clients of a bus, in their order.
fn clients(alloc: Global, bus: &Bus) -> Result<Vec<Member>, Memory>
    requires { IsFitBus bus.now }
    ensures { IfOk result (λ members. AreFresh bus.now.asks members.items) }
{
    let asks = bus.asks.as_slice();
    let mut members = Vec::with_capacity(alloc, asks.len() + 3)?;
    for place in 0..asks.len() {
        let client = client(alloc, place as u16, asks[place].as_slice())?;
        members.push(Member::Client(client))?;
    }
    Ok(members)
}

// One queue of each client: the first is this, each next one the second after.
fn every_second(alloc: Global, first: u16, clients: u16) -> Result<Vec<QueueId>, Memory>
    requires few { clients < 1024 }
    requires first { first < 2 }
    ensures { IfOk result (λ queues. AreEverySecond first clients queues.items) }
{
    let mut queues = Vec::with_capacity(alloc, clients as usize)?;
    for client in 0..clients {
        queues.push(QueueId(2 * client + first))?;
    }
    Ok(queues)
}

// The actors of a bus, each in its start state.
fn members(alloc: Global, bus: &Bus) -> Result<Vec<Member>, Memory>
    requires { IsFitBus bus.now }
    ensures { IfOk result (λ members. AreNew bus.now members.items) }
{
    let mut members = clients(alloc, bus)?;
    let clients = bus.clients as u16;
    let reqs = every_second(alloc, 0, clients)?;
    let resps = every_second(alloc, 1, clients)?;
    let req = QueueId(2 * clients);
    let resp = QueueId(2 * clients + 1);
    let bus_req = QueueId(2 * clients + 2);
    let bus_resp = QueueId(2 * clients + 3);
    let virt = I2cVirt::new(alloc, req, resp, &reqs, &resps)?;
    let driver = BusDriver::new(bus_req, bus_resp, req, resp);
    let addresses = Bytes::from_slice(alloc, bus.devices.as_slice())?;
    let device = BusDevice::new(alloc, bus_req, bus_resp, addresses)?;
    members.push(Member::Virt(virt))?;
    members.push(Member::Driver(driver))?;
    members.push(Member::Bus(device))?;
    Ok(members)
}

/// The actors of a bus in their start state, at the queues that `bus_queues` gives so many clients:
/// the clients, each with its requests and the pool of its number, the virtualiser, the driver and
/// the bus.
pub fn bus_members(alloc: Global, bus: &Bus) -> Result<Vec<Member>, Memory>
    requires { IsFitBus bus.now }
    ensures made { IfOk result (λ members. AreMade bus.now members.items) }
    ensures begins { (rows : List QueueRow) → AreQueues bus.now.clients rows
        → IfOk result (λ members. Begins member_means rows members.items) }
{
    members(alloc, bus)
}
