//! Where the buffers of each pool are, and what the actors counted as bad.
ghost use Rattle.std.specs.Prelude.{◌≡◌, ◌+◌, ◌<◌, ◌≤◌, ◌^◌, length, IfOk};
ghost use Rattle.cast_law.specs.PoolLines.PoolLines.{line_of, counted, counted_lines};
ghost use Rattle.cast_law.specs.Pools.Holders.{holders_of};
ghost use Rattle.system_core.specs.States.{held_by, lent_by, bad_in};
ghost use Rattle.system_core.specs.Asking.{AreWhole, HoldNoMore};

use actor_set::Actor;
use cargo_core::{Memory, PoolId, Series, Text};
use expect_core::Census;
use plain_wires::World;
use std::alloc::Global;
use wire_core::PoolRow;

// A copy of a row.
fn copy(alloc: Global, row: &PoolRow) -> Result<PoolRow, Memory>
    ensures { IfOk result (λ r. r ≡ row.now) }
{
    Ok(PoolRow {
        name: Text::new(alloc, row.name.as_str())?,
        region: row.region,
        base: row.base,
        buffers: row.buffers,
        size: row.size,
    })
}

/// Copies of the rows of pools.
pub fn pool_copies(alloc: Global, rows: &[PoolRow]) -> Result<Vec<PoolRow>, Memory>
    ensures { IfOk result (λ rs. rs.items ≡ rows.now) }
{
    let mut copies = Vec::with_capacity(alloc, rows.len())?;
    for row in rows {
        copies.push(copy(alloc, row)?)?;
    }
    Ok(copies)
}

// How many buffers of a pool are in the hands of these actors.
fn held(actors: &[Actor], pool: PoolId) -> u32
    requires whole { AreWhole actors.now }
    requires few { held_by pool actors.now < 2 ^ 32 }
    ensures { result ≡ held_by pool actors.now }
{
    let mut count: u32 = 0;
    for actor in actors {
        count += actor.held(pool);
    }
    count
}

// How many of them these actors have lent.
fn lent(actors: &[Actor], pool: PoolId) -> u32
    requires few { lent_by pool actors.now < 2 ^ 32 }
    ensures { result ≡ lent_by pool actors.now }
{
    let mut count: u32 = 0;
    for actor in actors {
        count += actor.lent(pool);
    }
    count
}

// The line of a pool.
fn line(
    alloc: Global,
    row: &PoolRow,
    pool: PoolId,
    world: &World,
    actors: &[Actor],
) -> Result<Census, Memory>
    requires whole { AreWhole actors.now }
    requires queues { length world.now ≤ 65536 }
    requires all { (counted world.now (holders_of actors.now) pool).queues
        + (counted world.now (holders_of actors.now) pool).hands
        + (counted world.now (holders_of actors.now) pool).lent ≤ row.now.buffers }
    ensures { IfOk result
        (λ l. l ≡ line_of row.now (counted world.now (holders_of actors.now) pool)) }
{
    let buffers = row.buffers;
    Ok(Census {
        name: Text::new(alloc, row.name.as_str())?,
        buffers,
        queues: world.pages(pool),
        hands: held(actors, pool),
        lent: lent(actors, pool),
    })
}

/// The lines of pools, by their numbers from 0 on.
pub fn lines(
    alloc: Global,
    pools: &[PoolRow],
    world: &World,
    actors: &[Actor],
) -> Result<Series<Census>, Memory>
    requires whole { AreWhole actors.now }
    requires queues { length world.now ≤ 65536 }
    requires few { length pools.now ≤ 65536 }
    requires all { HoldNoMore world.now (holders_of actors.now) pools.now }
    ensures { IfOk result
        (λ ls. ls ≡ counted_lines world.now (holders_of actors.now) 0 pools.now) }
{
    let mut lines = Series::new(alloc);
    for number in 0..pools.len() {
        let row = &pools[number];
        lines.push(line(alloc, row, PoolId(number as u16), world, actors)?)?;
    }
    Ok(lines)
}

/// How many entries these actors counted as bad. The count stands still at its type's end.
pub fn bad(actors: &[Actor]) -> u64
    ensures { result ≡ bad_in actors.now }
{
    let mut bad: u64 = 0;
    for actor in actors {
        bad = bad.saturating_add(actor.bad());
    }
    bad
}
