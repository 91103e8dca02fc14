//! The play of a switch.

ghost use Rattle.std.specs.Prelude.{IfOk};
ghost use Rattle.line_text.specs.PortsText.Given.{ArePorts};
ghost use Rattle.switch_play.specs.SwitchSystem.Playing.{PortsPlayed};

use crate::switch_system::reporting::report;
use cargo_core::Memory;
use line_text::ports_text::{PortReport, Ports};
use small_system::Small;
use std::alloc::Global;
use switched_law::switch_class::{Member, switch_actors, switch_queues};
use switched_law::switch_owners::switch_owner_law;
use switched_law::{hops_law, place_law, playable_law, records_law, wants_law, whole_law};
use text_limits::{ports_frames_law, ports_limits_law};

/// Plays a switch whose ports were read, with the picks that a seed gives, to its quiet end or to a
/// limit of steps, and reports it.
pub fn play_ports(alloc: Global, ports: &Ports, seed: u64, limit: u64) -> Result<PortReport, Memory>
    requires { ArePorts ports.now }
    ensures { IfOk result (PortsPlayed ports.now seed limit) }
{
    ports_limits_law();
    ports_frames_law();
    playable_law();
    switch_owner_law();
    place_law();
    records_law();
    hops_law();
    whole_law();
    wants_law();
    let count = ports.macs.len() as u16;
    let rows = switch_queues(alloc, count)?;
    let actors = switch_actors(alloc, ports)?;
    let mut small: Small<Member> = Small::new(alloc, &rows, actors)?;
    let quiet = small.play(seed, limit)?;
    report(alloc, small, count, quiet)
}
