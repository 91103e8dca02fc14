//! A bus or a switch is played, and its report is made the answer.
ghost use Rattle.std.specs.Prelude.{◌≡◌, IfOk};
ghost use Rattle.i2c_text.specs.Buses.{IsReadBus};
ghost use Rattle.line_text.specs.PortsText.Given.{ArePorts};
ghost use Rattle.decision_core.specs.Decisions.{PlayBus, PlayPorts};
ghost use Rattle.sddf_top.specs.Shown.{bus_limit, ports_limit};
ghost use Rattle.sddf_top.specs.Outcomes.{Follows};

use crate::Played;
use crate::answering::Outcome;
use crate::playing::ending_of;
use cargo_core::Memory;
use command_words::Schedule;
use i2c_play::{bus_bound, play_bus, write_bus};
use i2c_text::Bus;
use line_text::ports_text::Ports;
use std::alloc::Global;
use switch_play::{play_ports, ports_bound, write_ports};

/// How many steps the play of a bus may make: those that the words say, or those that are enough.
fn bus_limit(bus: &Bus, schedule: Schedule) -> u64
    requires { IsReadBus bus.now }
    ensures { result ≡ bus_limit bus.now schedule }
{
    match schedule.steps {
        Some(steps) => steps,
        None => bus_bound(bus),
    }
}

/// How many steps the play of a switch may make: those that the words say, or those that are
/// enough.
fn ports_limit(ports: &Ports, schedule: Schedule) -> u64
    requires { ArePorts ports.now }
    ensures { result ≡ ports_limit ports.now schedule }
{
    match schedule.steps {
        Some(steps) => steps,
        None => ports_bound(ports),
    }
}

/// Plays a bus, and makes the answer of what is reported.
pub fn play_one_bus(alloc: Global, bus: &Bus, schedule: Schedule) -> Result<Outcome, Memory>
    requires { IsReadBus bus.now }
    ensures { IfOk result (Follows (PlayBus bus.now schedule)) }
{
    let limit = bus_limit(bus, schedule);
    let report = play_bus(alloc, bus, schedule.seed, limit)?;
    let text = write_bus(alloc, &report)?;
    Ok(Outcome {
        status: ending_of(report.quiet, report.steps),
        text,
        played: Played::Bus(report),
    })
}

/// Plays a switch, and makes the answer of what is reported.
pub fn play_one_switch(alloc: Global, ports: &Ports, schedule: Schedule) -> Result<Outcome, Memory>
    requires { ArePorts ports.now }
    ensures { IfOk result (Follows (PlayPorts ports.now schedule)) }
{
    let limit = ports_limit(ports, schedule);
    let report = play_ports(alloc, ports, schedule.seed, limit)?;
    let text = write_ports(alloc, &report)?;
    Ok(Outcome {
        status: ending_of(report.quiet, report.steps),
        text,
        played: Played::Ports(report),
    })
}
