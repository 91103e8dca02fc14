//! The actors of the bus, of all kinds, as one type.
ghost use Rattle.bus_law.specs.I2cActors.Members.{member_means};
ghost use Rattle.bus_law.specs.I2cActors.MemberLaws.{member_lawful};

use cargo_core::Memory;
use i2c_virt::i2c_client::BusClient;
use i2c_virt::{BusDevice, BusDriver, I2cVirt};
use plain_wires::World;
use small_system::SmallActor;
use wire_core::Event;

/// An actor of the bus.
#[derive(Drop)]
pub enum Member {
    Client(BusClient),
    Virt(I2cVirt),
    Driver(BusDriver),
    Bus(BusDevice),
}

impl SmallActor for Member {
    ghost means = { member_means };

    #[inline(always)]
    fn step(&mut self, world: &mut World, event: &mut Event) -> Result<(), Memory> {
        match self {
            Member::Client(client) => client.step(world, event)?,
            Member::Virt(virt) => virt.step(world, event),
            Member::Driver(driver) => driver.step(world, event),
            Member::Bus(bus) => bus.step(world, event),
        }
        Ok(())
    }

    fn at_rest(&self) -> bool {
        match self {
            Member::Client(client) => client.at_rest(),
            Member::Virt(virt) => virt.at_rest(),
            Member::Driver(driver) => driver.at_rest(),
            Member::Bus(bus) => bus.at_rest(),
        }
    }

    ghost lawful = { member_lawful };
}
