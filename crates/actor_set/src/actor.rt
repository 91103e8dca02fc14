//! One actor of any kind, so that a system can keep a list of them.

ghost use Rattle.std.specs.Prelude.{◌≡◌, ℕ, true, OnOk, OnErr};
ghost use Rattle.wire_core.specs.Ends.{Role, End};
ghost use Rattle.wire_core.specs.Lists.{Passed, Stepped};
ghost use Rattle.cargo_core.specs.Bodies.{buffers_of};
ghost use Rattle.actor_set.specs.Actors.{FitsActor, ActorStandsFor, ActorRow, ActorBalances};
ghost use Rattle.actor_set.specs.Actors.{ActorTurned, IsActorCall, IsWhole, MayStep, Forgot};
ghost use Rattle.actor_set.specs.Actors.{actor_rests, actor_hand, part_of, part_anew};
ghost use Rattle.actor_set.specs.Actors.{record_length, bad_of, actor_lent, answers_event};
ghost use Rattle.actor_set.specs.Laws.Kinds.{manner_of};
ghost use Rattle.play_core.specs.Manners.{is_hostile};

use crate::Disk;
use blk_driver::BlkDriver;
use blk_virt::BlkVirt;
use cargo_core::{Memory, PoolId};
use client_programs::blk::BlkClient;
use client_programs::{NetClient, Rogue, SerialClient};
use device_model::{EthDevice, UartDevice};
use eth_driver::EthDriver;
use net_copier::NetCopier;
use net_virt_rx::NetVirtRx;
use net_virt_tx::NetVirtTx;
use serial_virt::{SerialVirtRx, SerialVirtTx};
use uart_driver::UartDriver;
use wire_core::{Event, WildWires};

/// One actor of any kind.
#[derive(Drop)]
pub enum Actor {
    UartDevice(UartDevice),
    UartDriver(UartDriver),
    SerialVirtRx(SerialVirtRx),
    SerialVirtTx(SerialVirtTx),
    SerialClient(SerialClient),
    EthDevice(EthDevice),
    EthDriver(EthDriver),
    NetVirtRx(NetVirtRx),
    NetCopier(NetCopier),
    NetClient(NetClient),
    NetVirtTx(NetVirtTx),
    DiskDevice(Disk),
    BlkDriver(BlkDriver),
    BlkVirt(BlkVirt),
    BlkClient(BlkClient),
    Rogue(Rogue),
}

impl Actor {
    /// Whether nothing is to be done before a notification comes, or, of a hostile client, ever.
    #[inline(always)]
    pub fn at_rest(&self) -> bool
        ensures { result ≡ actor_rests self.now }
    {
        match self {
            Actor::UartDevice(device) => device.at_rest(),
            Actor::UartDriver(driver) => driver.at_rest(),
            Actor::SerialVirtRx(virt) => virt.at_rest(),
            Actor::SerialVirtTx(virt) => virt.at_rest(),
            Actor::SerialClient(client) => client.at_rest(),
            Actor::EthDevice(device) => device.at_rest(),
            Actor::EthDriver(driver) => driver.at_rest(),
            Actor::NetVirtRx(virt) => virt.at_rest(),
            Actor::NetCopier(copier) => copier.at_rest(),
            Actor::NetClient(client) => client.at_rest(),
            Actor::NetVirtTx(virt) => virt.at_rest(),
            Actor::DiskDevice(disk) => disk.device.at_rest(),
            Actor::BlkDriver(driver) => driver.at_rest(),
            Actor::BlkVirt(virt) => virt.at_rest(),
            Actor::BlkClient(client) => client.at_rest(),
            Actor::Rogue(client) => client.at_rest(),
        }
    }

    /// Whether it is a hostile client.
    #[inline(always)]
    pub fn is_hostile(&self) -> bool
        ensures { result ≡ is_hostile (manner_of (part_of self.now)) }
    {
        matches!(self, Actor::Rogue(_))
    }

    /// The length of a client's record, in bytes, in frames or in replies, and 0 for an actor of
    /// another kind.
    pub fn recorded(&self) -> u64
        ensures { result ≡ record_length self.now }
    {
        match self {
            Actor::SerialClient(client) => client.got().len() as u64,
            Actor::NetClient(client) => client.got().len() as u64,
            Actor::BlkClient(client) => client.replies().len() as u64,
            _ => 0,
        }
    }

    /// How many bad descriptors or requests it counted: a sending virtualiser of the network and a
    /// block virtualiser those that came from their clients, and an actor of another kind none.
    pub fn bad(&self) -> u64
        ensures { result ≡ bad_of self.now }
    {
        match self {
            Actor::NetVirtTx(virt) => virt.bad(),
            Actor::BlkVirt(virt) => virt.bad(),
            _ => 0,
        }
    }

    /// How many buffers of a pool are in its hand; one that it lent isn't.
    pub fn held(&self, pool: PoolId) -> u32
        requires { IsWhole self.now }
        ensures { result ≡ buffers_of pool (actor_hand self.now) }
    {
        match self {
            Actor::UartDevice(device) => device.held(pool),
            Actor::UartDriver(driver) => driver.held(pool),
            Actor::SerialVirtRx(virt) => virt.held(pool),
            Actor::SerialVirtTx(virt) => virt.held(pool),
            Actor::SerialClient(client) => client.held(pool),
            Actor::EthDevice(device) => device.held(pool),
            Actor::EthDriver(driver) => driver.held(pool),
            Actor::NetVirtRx(virt) => virt.held(pool),
            Actor::NetCopier(copier) => copier.held(pool),
            Actor::NetClient(client) => client.held(pool),
            Actor::NetVirtTx(virt) => virt.held(pool),
            Actor::DiskDevice(disk) => disk.device.held(pool),
            Actor::BlkDriver(driver) => driver.held(pool),
            Actor::BlkVirt(virt) => virt.held(pool),
            Actor::BlkClient(client) => client.held(pool),
            Actor::Rogue(client) => client.held(pool),
        }
    }

    /// How many buffers of a pool it lent: a receiving virtualiser of the network those of its own
    /// pool that are with a receiver, and an actor of another kind none.
    pub fn lent(&self, pool: PoolId) -> u32
        ensures { result ≡ actor_lent self.now pool.0 }
    {
        match self {
            Actor::NetVirtRx(virt) if virt.work.stock.pool.0 == pool.0 => virt.lent(),
            _ => 0,
        }
    }

    /// Makes one call on one of its ends, which `event` tells then; a hostile client may store a
    /// word of one of its queues in its place. After want of memory no call was made and nothing
    /// changed.
    pub fn step<W: WildWires>(&mut self, wires: &mut W, event: &mut Event) -> Result<(), Memory>
        requires fits { FitsActor (W.ends wires.old) self.old }
        requires may { MayStep (W.wild wires.old) self.old }
        ensures fits { FitsActor (W.ends wires.new) self.new }
        ensures own { OnOk result (IsActorCall self.old event.new) }
        ensures part { part_of self.new ≡ part_of self.old }
        ensures stepped { OnOk result (Stepped ActorStandsFor W.did wires.old wires.new self.old
            self.new event.new) }
        ensures turned { OnOk result (ActorTurned self.old event.new self.new) }
        ensures no_call { OnErr result (wires.new ≡ wires.old) }
        ensures unchanged { OnErr result (self.new ≡ self.old) }
    {
        match self {
            Actor::UartDevice(device) => device.step(wires, event),
            Actor::UartDriver(driver) => {
                driver.step(wires, event);
                Ok(())
            }
            Actor::SerialVirtRx(virt) => {
                virt.step(wires, event);
                Ok(())
            }
            Actor::SerialClient(client) => client.step(wires, event),
            Actor::EthDriver(driver) => {
                driver.step(wires, event);
                Ok(())
            }
            Actor::BlkDriver(driver) => {
                driver.step(wires, event);
                Ok(())
            }
            Actor::SerialVirtTx(_)
            | Actor::EthDevice(_)
            | Actor::NetVirtRx(_)
            | Actor::NetCopier(_)
            | Actor::NetClient(_)
            | Actor::NetVirtTx(_)
            | Actor::DiskDevice(_)
            | Actor::BlkVirt(_)
            | Actor::BlkClient(_)
            | Actor::Rogue(_) => self.step_by_answer(wires, event),
        }
    }

    // The same of the actors whose steps answer their event. It stands apart, since a function pays
    // at entry for each event that it handles by value.
    #[inline(never)]
    fn step_by_answer<W: WildWires>(
        &mut self,
        wires: &mut W,
        event: &mut Event,
    ) -> Result<(), Memory>
        requires answers { answers_event self.old ≡ true }
        requires fits { FitsActor (W.ends wires.old) self.old }
        requires may { MayStep (W.wild wires.old) self.old }
        ensures fits { FitsActor (W.ends wires.new) self.new }
        ensures own { OnOk result (IsActorCall self.old event.new) }
        ensures part { part_of self.new ≡ part_of self.old }
        ensures stepped { OnOk result (Stepped ActorStandsFor W.did wires.old wires.new self.old
            self.new event.new) }
        ensures turned { OnOk result (ActorTurned self.old event.new self.new) }
        ensures no_call { OnErr result (wires.new ≡ wires.old) }
        ensures unchanged { OnErr result (self.new ≡ self.old) }
    {
        match self {
            Actor::SerialVirtTx(virt) => *event = virt.step(wires),
            Actor::EthDevice(device) => *event = device.step(wires)?,
            Actor::NetVirtRx(virt) => *event = virt.step(wires)?,
            Actor::NetCopier(copier) => *event = copier.step(wires),
            Actor::NetClient(client) => *event = client.step(wires)?,
            Actor::NetVirtTx(virt) => *event = virt.step(wires),
            Actor::DiskDevice(disk) => *event = disk.device.step(wires),
            Actor::BlkVirt(virt) => *event = virt.step(wires),
            Actor::BlkClient(client) => *event = client.step(wires)?,
            Actor::Rogue(client) => *event = client.step(wires),
            Actor::UartDevice(_)
            | Actor::UartDriver(_)
            | Actor::SerialVirtRx(_)
            | Actor::SerialClient(_)
            | Actor::EthDriver(_)
            | Actor::BlkDriver(_) => unreachable!(),
        }
        Ok(())
    }

    /// Discards the last look of each end, and nothing else; a hostile client's journal begins
    /// here.
    pub fn forget(&mut self)
        ensures after { Forgot self.old self.new }
        ensures part { part_of self.new ≡ part_anew self.old }
        ensures recorded { record_length self.new ≡ record_length self.old }
        ensures whole { IsWhole self.old → IsWhole self.new }
        ensures fits { (ends : Role → ℕ → End) → FitsActor ends self.old → FitsActor ends self.new }
        ensures lists { (passed : Passed) → ActorStandsFor self.old passed
            → ActorStandsFor self.new passed }
    {
        match self {
            Actor::UartDevice(device) => device.forget(),
            Actor::UartDriver(driver) => driver.forget(),
            Actor::SerialVirtRx(virt) => virt.forget(),
            Actor::SerialVirtTx(virt) => virt.forget(),
            Actor::SerialClient(client) => client.forget(),
            Actor::EthDevice(device) => device.forget(),
            Actor::EthDriver(driver) => driver.forget(),
            Actor::NetVirtRx(virt) => virt.forget(),
            Actor::NetCopier(copier) => copier.forget(),
            Actor::NetClient(client) => client.forget(),
            Actor::NetVirtTx(virt) => virt.forget(),
            Actor::DiskDevice(disk) => disk.device.forget(),
            Actor::BlkDriver(driver) => driver.forget(),
            Actor::BlkVirt(virt) => virt.forget(),
            Actor::BlkClient(client) => client.forget(),
            Actor::Rogue(client) => client.forget(),
        }
    }
}

/// Whatever it stands for meets its row.
pub fn row_law()
    ensures { (a : Actor) (passed : Passed) → ActorStandsFor a passed → ActorRow a passed }
{
    device_model::serial_terminal::row_law();
    pipe_driver::row_law();
    serial_virt::rx_row_law();
    serial_virt::tx_row_law();
    device_model::ethernet::row_law();
    net_virt_rx::row_law();
    net_copier::row_law();
    client_programs::net::row_law();
    net_virt_tx::row_law();
    device_model::disk::row_law();
    blk_virt::row_law();
    client_programs::blk::row_law();
}

/// For each pool, what an actor had at the start and what came is what went, what is in its hand,
/// and what it keeps for good or lends.
pub fn hand_law()
    ensures { (a : Actor) (passed : Passed) → ActorStandsFor a passed → ActorBalances a passed }
{
    device_model::serial_terminal::hand_law();
    pipe_driver::hand_law();
    serial_virt::rx_hand_law();
    serial_virt::tx_hand_law();
    device_model::ethernet::hand_law();
    net_virt_rx::hand_law();
    net_copier::hand_law();
    client_programs::net::hand_law();
    net_virt_tx::hand_law();
    device_model::disk::hand_law();
    blk_virt::hand_law();
    client_programs::blk::hand_law();
    client_programs::rogue::hand_law();
}
