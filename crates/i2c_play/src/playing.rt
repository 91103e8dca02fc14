//! The play of a bus.

ghost use Rattle.std.specs.Prelude.{◌≡◌, ◌≤◌, ◌<◌, ℕ, true, false, IfOk, length, map};
ghost use Rattle.small_system.specs.Shows.{Shown, Played, IsQuiet, IsSpent};
ghost use Rattle.i2c_text.specs.declared.bus.Bus.{Bus};
ghost use Rattle.i2c_text.specs.declared.report.BusReport.{BusReport};
ghost use Rattle.i2c_text.specs.Buses.{IsReadBus};
ghost use Rattle.text_limits.specs.Limits.{KeepsBusLimits};
ghost use Rattle.bus_law.specs.declared.i2c_actors.member.Member.{Member};
ghost use Rattle.bus_law.specs.I2cActors.Members.{member_means};
ghost use Rattle.bus_law.specs.I2cActors.Casting.{IsFitBus};
ghost use Rattle.i2c_play.specs.Plays.{IsSetUp, recorded, IsReportOf};
ghost use Rattle.i2c_play.specs.Playing.{BusPlayed};

use bus_law::bus_owners::{bus_pools, owners_law};
use bus_law::i2c_actors::{Member, bus_members, bus_queues};
use bus_law::{hops_law, replies_law, wants_law, whole_law};
use cargo_core::{Bytes, Memory, Series};
use i2c_text::{Bus, BusReply, BusReport};
use small_system::{Small, tale_law};
use std::alloc::Global;
use text_limits::bus_limits_law;

// The actors of a bus that was read can be made.
fn fit_law()
    ensures { (bus : Bus) → IsReadBus bus → IsFitBus bus }
{
    bus_limits_law();
}

// What an actor recorded.
fn recorded(actor: &Member) -> &[BusReply]
    ensures { result.now ≡ recorded actor.now }
{
    match actor {
        Member::Client(client) => client.replies(),
        Member::Virt(_) | Member::Driver(_) | Member::Bus(_) => &[],
    }
}

// A copy of a reply.
fn copy(alloc: Global, reply: &BusReply) -> Result<BusReply, Memory>
    ensures { IfOk result (λ copy. copy ≡ reply.now) }
{
    Ok(BusReply {
        status: reply.status,
        bytes: Bytes::from_slice(alloc, reply.bytes.as_slice())?,
    })
}

// Copies of replies.
fn copies(alloc: Global, replies: &[BusReply]) -> Result<Series<BusReply>, Memory>
    ensures { IfOk result (λ copies. copies ≡ replies.now) }
{
    let mut copies = Vec::with_capacity(alloc, replies.len())?;
    for reply in replies {
        copies.push(copy(alloc, reply)?)?;
    }
    Ok(Series::from_vec(copies))
}

// What each of these actors recorded.
fn all_recorded(alloc: Global, actors: &[Member]) -> Result<Series<Series<BusReply>>, Memory>
    ensures { IfOk result (λ lists. lists ≡ map recorded actors.now) }
{
    let mut lists = Vec::with_capacity(alloc, actors.len())?;
    for actor in actors {
        lists.push(copies(alloc, recorded(actor))?)?;
    }
    Ok(Series::from_vec(lists))
}

// What the player shows is told by the report, and holds of the bus.
fn report_law()
    ensures { (bus : Bus) (seed limit : ℕ) (old new : Shown Member) (report : BusReport)
        → KeepsBusLimits bus → IsSetUp bus old → Played member_means old new seed limit
        → (report.quiet ≡ true → IsQuiet member_means new)
        → (report.quiet ≡ false → IsSpent member_means old new limit)
        → IsReportOf bus new report → BusPlayed bus seed limit report }
{
    tale_law::<Member>();
    replies_law();
    hops_law();
    whole_law();
    wants_law();
    owners_law();
}

// The actors of a bus at its queues, before the first step.
fn set_up(alloc: Global, bus: &Bus) -> Result<Small<Member>, Memory>
    requires { IsFitBus bus.now }
    ensures { IfOk result (IsSetUp bus.now) }
{
    let rows = bus_queues(alloc, bus.clients as u16)?;
    let members = bus_members(alloc, bus)?;
    Small::new(alloc, &rows, members)
}

// The report of a player, whose journal it keeps.
fn report(alloc: Global, bus: &Bus, small: Small<Member>, quiet: bool) -> Result<BusReport, Memory>
    requires few { bus.now.clients < 1024 }
    requires there { bus.now.clients ≤ length small.moment.actors }
    ensures quiet { IfOk result (λ report. report.quiet ≡ quiet) }
    ensures told { IfOk result (IsReportOf bus.now small) }
{
    let clients = bus.clients as usize;
    let (_world, actors, journal) = small.into_parts();
    let replies = all_recorded(alloc, &actors[..clients])?;
    let pools = bus_pools(alloc, bus.clients as u16, &journal)?;
    Ok(BusReport {
        quiet,
        steps: journal.len() as u64,
        replies,
        pools,
        journal: Series::from_vec(journal),
    })
}

/// Plays a bus that was read, with the picks that a seed gives, to its quiet end or to a limit of
/// steps, and reports it.
pub fn play_bus(alloc: Global, bus: &Bus, seed: u64, limit: u64) -> Result<BusReport, Memory>
    requires { IsReadBus bus.now }
    ensures { IfOk result (BusPlayed bus.now seed limit) }
{
    bus_limits_law();
    fit_law();
    tale_law::<Member>();
    let mut small = set_up(alloc, bus)?;
    let quiet = small.play(seed, limit)?;
    report_law();
    report(alloc, bus, small, quiet)
}
