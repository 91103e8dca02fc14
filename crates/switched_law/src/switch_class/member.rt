//! The actors, of both kinds.
ghost use Rattle.switched_law.specs.SwitchClass.Members.{member_means};
ghost use Rattle.switched_law.specs.SwitchClass.MemberLaws.{member_lawful};

use cargo_core::Memory;
use client_programs::NetClient;
use net_switch::NetSwitch;
use plain_wires::World;
use small_system::SmallActor;
use wire_core::Event;

/// An actor of a switch's system.
#[derive(Drop)]
pub enum Member {
    Client(NetClient),
    Switch(NetSwitch),
}

impl SmallActor for Member {
    ghost means = { member_means };

    fn step(&mut self, world: &mut World, event: &mut Event) -> Result<(), Memory> {
        match self {
            Member::Client(client) => *event = client.step(world)?,
            Member::Switch(switch) => *event = switch.step(world),
        }
        Ok(())
    }

    fn at_rest(&self) -> bool {
        match self {
            Member::Client(client) => client.at_rest(),
            Member::Switch(switch) => switch.at_rest(),
        }
    }

    ghost lawful = { member_lawful };
}
