//! What the report of a play tells of the last moment.

ghost use Rattle.std.specs.Prelude.{◌≡◌, ◌+◌, ◌*◌, ◌<◌, ◌≤◌, ℕ, IfOk, length};
ghost use Rattle.switched_law.specs.SwitchOwners.Lines.{queued};
ghost use Rattle.switch_play.specs.SwitchSystem.Lines.{pool_name, line_of, lines_from, counted};
ghost use Rattle.switch_play.specs.SwitchSystem.Reporting.{IsRecord, IsLost, AreRecords, Tells};

use cargo_core::{Census, FrameLog, Memory, PoolId, Series, Text};
use line_text::ports_text::PortReport;
use plain_wires::World;
use small_system::Small;
use std::alloc::Global;
use switched_law::switch_class::{BUFFERS, Member};

// A copy of some frames.
fn copied(alloc: Global, frames: &FrameLog) -> Result<FrameLog, Memory>
    ensures { IfOk result (λ copy. copy ≡ frames.now) }
{
    let mut copy = FrameLog::new(alloc);
    for k in 0..frames.len() {
        copy.push(frames.get(k))?;
    }
    Ok(copy)
}

// What the actor of a place recorded.
fn recorded(alloc: Global, actors: &[Member], place: usize) -> Result<FrameLog, Memory>
    requires { place < length actors.now }
    ensures { IfOk result (IsRecord actors.now place) }
{
    match &actors[place] {
        Member::Client(client) => copied(alloc, client.got()),
        Member::Switch(_) => Ok(FrameLog::new(alloc)),
    }
}

// What the first actors recorded.
fn records(alloc: Global, actors: &[Member], count: u16) -> Result<Series<FrameLog>, Memory>
    requires { count ≤ length actors.now }
    ensures { IfOk result (AreRecords actors.now count) }
{
    let mut records = Series::new(alloc);
    for place in 0..count {
        records.push(recorded(alloc, actors, place as usize)?)?;
    }
    Ok(records)
}

// How many frames the switch of a place counted as lost.
fn lost(actors: &[Member], place: u16) -> u64
    requires { place < length actors.now }
    ensures { IsLost actors.now place result }
{
    match &actors[place as usize] {
        Member::Client(_) => 0,
        Member::Switch(switch) => switch.lost(),
    }
}

// The name of a pool of a port.
fn name(alloc: Global, port: u16, way: &str) -> Result<Text, Memory>
    ensures { IfOk result (λ t. t ≡ pool_name port way.now) }
{
    let name = format!(in alloc; "switch.{port}.{way}")?;
    Text::new(alloc, name.as_str())
}

// The line of a pool of this name.
fn line(name: Text, world: &World, pool: u16) -> Census
    requires queues { length world.now ≤ 65536 }
    requires few { queued world.now pool ≤ 4 }
    ensures { result ≡ line_of name (counted world.now pool) }
{
    let queues = world.pages(PoolId(pool));
    Census {
        name,
        buffers: BUFFERS,
        queues,
        hands: BUFFERS - queues,
        lent: 0,
    }
}

// The lines of the pools of so many ports.
fn lines(alloc: Global, world: &World, ports: u16) -> Result<Series<Census>, Memory>
    requires ports { ports ≤ 8 }
    requires queues { length world.now ≤ 65536 }
    requires few { (pool : ℕ) → pool < 2 * ports → queued world.now pool ≤ 4 }
    ensures { IfOk result (λ lines. lines ≡ lines_from (counted world.now) 0 ports) }
{
    let mut lines = Series::new(alloc);
    for port in 0..ports {
        let rx = name(alloc, port, "rx")?;
        lines.push(line(rx, world, 2 * port))?;
        let tx = name(alloc, port, "tx")?;
        lines.push(line(tx, world, 2 * port + 1))?;
    }
    Ok(lines)
}

/// The report of what a player with so many clients shows, which is quiet or not. It keeps the
/// player's journal.
pub fn report(
    alloc: Global,
    small: Small<Member>,
    ports: u16,
    quiet: bool,
) -> Result<PortReport, Memory>
    requires ports { ports ≤ 8 }
    requires actors { length small.moment.actors ≡ ports + 1 }
    requires queues { length small.moment.world ≤ 65536 }
    requires few { (pool : ℕ) → pool < 2 * ports → queued small.moment.world pool ≤ 4 }
    ensures { IfOk result (Tells small ports quiet) }
{
    let (world, actors, journal) = small.into_parts();
    let records = records(alloc, &actors, ports)?;
    let pools = lines(alloc, &world, ports)?;
    Ok(PortReport {
        quiet,
        steps: journal.len() as u64,
        records,
        pools,
        lost: lost(&actors, ports),
        journal: Series::from_vec(journal),
    })
}
