//! Each actor of these rows stands alone over queues whose other ends are worked by hand: between
//! two calls by hand it has time to be at rest.

ghost use Rattle.std.specs.Prelude.{List};
ghost use Rattle.wire_core.specs.Queues.{Queue};
ghost use Rattle.actor_rows.specs.Standings.{DriverStands, RxStands, TxStands};
ghost use Rattle.actor_rows.specs.NetTx.Standings.{Stands};
ghost use Rattle.actor_rows.specs.Sizes.{DeviceStands, LenderStands, CopierStands, ClientStands};
ghost use Rattle.actor_rows.specs.Sizes.{FourStand};

use client_programs::NetClient;
use device_model::EthDevice;
use eth_driver::EthDriver;
use net_copier::NetCopier;
use net_virt_rx::NetVirtRx;
use net_virt_tx::NetVirtTx;
use plain_wires::World;
use serial_virt::{SerialVirtRx, SerialVirtTx};
use turn_kit::event_place;
use uart_driver::UartDriver;

/// How many calls an actor of these rows makes at most until it is at rest.
const ENOUGH: u32 = 60;

/// An actor that stands alone at its queues.
pub trait Alone {
    /// It stands at these queues.
    ghost stands: { List Queue → Self → Type 0 };

    /// Makes one call, or none where memory is wanting.
    fn call(&mut self, world: &mut World)
        requires { stands world.old self.old }
        ensures { stands world.new self.new };
}

impl Alone for SerialVirtRx {
    ghost stands = { RxStands };

    fn call(&mut self, world: &mut World) {
        let mut event = event_place();
        self.step(world, &mut event);
    }
}

impl Alone for SerialVirtTx {
    ghost stands = { TxStands };

    fn call(&mut self, world: &mut World) {
        self.step(world);
    }
}

impl Alone for UartDriver {
    ghost stands = { DriverStands };

    fn call(&mut self, world: &mut World) {
        let mut event = event_place();
        self.step(world, &mut event);
    }
}

impl Alone for NetVirtTx {
    ghost stands = { Stands };

    fn call(&mut self, world: &mut World) {
        self.step(world);
    }
}

impl Alone for EthDriver {
    ghost stands = { FourStand };

    fn call(&mut self, world: &mut World) {
        let mut event = event_place();
        self.step(world, &mut event);
    }
}

impl Alone for EthDevice {
    ghost stands = { DeviceStands };

    fn call(&mut self, world: &mut World) {
        let _called = self.step(world);
    }
}

impl Alone for NetVirtRx {
    ghost stands = { LenderStands };

    fn call(&mut self, world: &mut World) {
        let _called = self.step(world);
    }
}

impl Alone for NetCopier {
    ghost stands = { CopierStands };

    fn call(&mut self, world: &mut World) {
        self.step(world);
    }
}

impl Alone for NetClient {
    ghost stands = { ClientStands };

    fn call(&mut self, world: &mut World) {
        let _called = self.step(world);
    }
}

/// Gives an actor time to be at rest.
pub fn settle<A: Alone>(actor: &mut A, world: &mut World)
    requires { A.stands world.old actor.old }
    ensures { A.stands world.new actor.new }
{
    for _call in 0..ENOUGH {
        actor.call(world);
    }
}
