//! The actors of the block class.
ghost use Rattle.std.specs.Prelude.{◌≡◌, ◌<◌, ◌≤◌, ◌+◌, ◌*◌, ◌/◌, ◌^◌, ℕ, List, Some, length, map};
ghost use Rattle.std.specs.Prelude.{slice_get, IfOk};
ghost use Rattle.cargo_core.specs.Blocks.{sector_bytes, blk_buffer_bytes};
ghost use Rattle.cargo_core.specs.declared.item.Ask.{Ask};
ghost use Rattle.region_layout.specs.Rows.{pools_of};
ghost use Rattle.trace_text.specs.Events.{blk_clients};
ghost use Rattle.trace_text.specs.Traces.{per_client};
ghost use Rattle.actor_set.specs.Actors.{part_of};
ghost use Rattle.actor_set.specs.Parts.{BlockPart};
ghost use Rattle.actor_set.specs.StartStates.{IsNew, IsNewServer, IsNewAsker};
ghost use Rattle.blk_law.specs.Sheets.Parts.{BlkVirt as VirtPart, DiskDevice as DiskPart};
ghost use Rattle.blk_law.specs.Sheets.Numbers.{blk_driver_at, blk_client_at, sharers_from};
ghost use Rattle.blk_law.specs.Sheets.Playing.{virt_part, blk_client_part};
ghost use Rattle.expect_core.specs.Expected.{client_asks, client_entry};
ghost use Rattle.cast_core.specs.Sources.{first_blk, first_blk_pool, pool_at};
ghost use Rattle.trace_text.specs.declared.class.Class.TheVariants as Of;
ghost use Rattle.layout_laws.specs.Jobs.Jobs as jobs;
ghost use Rattle.cast_core.specs.Casts.{job_part};
ghost use Rattle.cast_core.specs.Hostile.{HasActs};
ghost use Rattle.cast_core.specs.Known.{blk_job, blk_within};
ghost use Rattle.cast_core.specs.Making.{blk_ends, HasAsks, HasBlkPools, HasPool};

use crate::hostile::blk_rogue;
use crate::jobs::BlkJob;
use crate::pools::{pages, pool_row};
use crate::shared::first_blk;
use actor_set::{Actor, Disk};
use blk_driver::BlkDriver;
use blk_virt::{BlkEnds, BlkVirt};
use cargo_core::{Ask, BLK_BUFFER_BYTES, Bytes, Memory, Page, PoolId, SECTOR_BYTES};
use client_programs::blk::BlkClient;
use expect_core::client_entry;
use sdf_plan::Plan;
use std::alloc::Global;
use trace_text::{Trace, is_blk_rogue};
use wire_core::{PoolRow, QueueId};

// The number of the virtualiser's pool: those of the network stand before it.
fn first_blk_pool(plan: &Plan) -> u16
    requires { first_blk_pool plan.now ≤ 65535 }
    ensures { result ≡ first_blk_pool plan.now }
{
    match &plan.net {
        Some(net) => 1 + 2 * net.client.len() as u16,
        None => 0,
    }
}

// A copy of some requests.
fn copied(alloc: Global, asks: &[Ask]) -> Result<Vec<Ask>, Memory>
    ensures { IfOk result (λ copy. copy.items ≡ asks.now) }
{
    let mut copy = Vec::with_capacity(alloc, asks.len())?;
    for ask in asks {
        copy.push(Ask {
            code: ask.code,
            block: ask.block,
            count: ask.count,
            fill: Bytes::from_slice(alloc, ask.fill.as_slice())?,
        })?;
    }
    Ok(copy)
}

// The clients as the virtualiser has them.
fn blk_ends(
    alloc: Global,
    plan: &Plan,
    rows: &[PoolRow],
    clients: u16,
) -> Result<Vec<BlkEnds>, Memory>
    requires few { clients ≤ 8 }
    requires queues { first_blk plan.now ≤ 100 }
    requires pools { first_blk_pool plan.now ≤ 100 }
    requires rows { first_blk_pool plan.now + 1 + clients ≤ length rows.now }
    requires entries { (c : ℕ) → c < clients → client_entry plan.now c < 4 }
    ensures { IfOk result (λ ends. ends.items ≡ per_client clients (blk_ends plan.now rows.now)) }
{
    let first = first_blk(plan);
    let first_pool = first_blk_pool(plan);
    let mut ends = Vec::with_capacity(alloc, clients as usize)?;
    for c in 0..clients {
        let pool = first_pool + 1 + c;
        let row = pool_row(rows, pool);
        ends.push(BlkEnds {
            base: row.base,
            buffers: row.buffers,
            req: QueueId(first + 4 + 2 * c),
            resp: QueueId(first + 5 + 2 * c),
            pool: PoolId(pool),
            partition: client_entry(plan, c as u32),
        })?;
    }
    Ok(ends)
}

// The disk.
fn disk(alloc: Global, first: u16, trace: &Trace) -> Result<Disk, Memory>
    requires { first < 65535 }
    ensures new { IfOk result (λ d. IsNew (Actor.DiskDevice d)) }
    ensures part { IfOk result (λ d. part_of (Actor.DiskDevice d)
        ≡ BlockPart (DiskPart first (first + 1) trace.now.image)) }
{
    let image = Bytes::from_slice(alloc, trace.image())?;
    Ok(Disk::new(QueueId(first), QueueId(first + 1), image))
}

// The driver.
fn driver(first: u16) -> BlkDriver
    requires { first + 3 ≤ 65535 }
    ensures new { IsNew (Actor.BlkDriver result) }
    ensures part { part_of (Actor.BlkDriver result) ≡ BlockPart (blk_driver_at first) }
{
    BlkDriver::new(
        QueueId(first),
        QueueId(first + 1),
        QueueId(first + 2),
        QueueId(first + 3),
    )
}

// The virtualiser.
fn virtualiser(
    alloc: Global,
    plan: &Plan,
    pools: &[PoolRow],
    trace: &Trace,
    clients: u16,
) -> Result<BlkVirt, Memory>
    requires few { clients ≤ 8 }
    requires queues { first_blk plan.now ≤ 100 }
    requires numbers { first_blk_pool plan.now ≤ 100 }
    requires pools { HasBlkPools plan.now pools.now clients }
    requires entries { (c : ℕ) → c < clients → client_entry plan.now c < 4 }
    requires image { length trace.now.image ≤ 2 ^ 25 }
    ensures new { IfOk result IsNewServer }
    ensures part { IfOk result (λ v. virt_part v
        ≡ VirtPart (first_blk plan.now + 2) (first_blk plan.now + 3)
        (length trace.now.image / sector_bytes)
        (pool_at pools.now (first_blk_pool plan.now))
        (sharers_from (first_blk plan.now) 0 (per_client clients (client_entry plan.now))
        (per_client clients (λ c. pool_at pools.now (first_blk_pool plan.now + 1 + c))))) }
{
    let first = first_blk(plan);
    let own = first_blk_pool(plan);
    let base = pool_row(pools, own).base;
    let page = Page::new(alloc, PoolId(own), 0, BLK_BUFFER_BYTES)?;
    let ends = blk_ends(alloc, plan, pools, clients)?;
    let sectors = (trace.image().len() / SECTOR_BYTES) as u32;
    let req = QueueId(first + 2);
    Ok(BlkVirt::new(alloc, req, QueueId(first + 3), ends, page, base, sectors)?)
}

// The client of a number.
fn client(
    alloc: Global,
    plan: &Plan,
    pools: &[PoolRow],
    trace: &Trace,
    client: u16,
) -> Result<BlkClient, Memory>
    requires few { client < 8 }
    requires queues { first_blk plan.now ≤ 100 }
    requires numbers { first_blk_pool plan.now ≤ 100 }
    requires pool { HasPool blk_buffer_bytes pools.now (first_blk_pool plan.now + 1 + client) }
    requires there { client < length trace.now.asks }
    requires asks { (asks : List Ask) → slice_get trace.now.asks client ≡ Some asks
        → length asks ≤ 1024 }
    ensures new { IfOk result IsNewAsker }
    ensures part { IfOk result (λ x. blk_client_part x
        ≡ blk_client_at (first_blk plan.now) client (client_asks trace.now client)
        (pool_at pools.now (first_blk_pool plan.now + 1 + client))) }
{
    let first = first_blk(plan);
    let pool = first_blk_pool(plan) + 1 + client;
    let pages = pages(alloc, pool, pool_row(pools, pool).buffers, BLK_BUFFER_BYTES)?;
    let asks = copied(alloc, trace.asks(client as u32))?;
    let req = first + 4 + 2 * client;
    Ok(BlkClient::new(alloc, QueueId(req), QueueId(req + 1), pages, asks))
}

// The client of a number, hostile or not.
fn any_client(
    alloc: Global,
    plan: &Plan,
    pools: &[PoolRow],
    trace: &Trace,
    clients: u16,
    number: u16,
) -> Result<Actor, Memory>
    requires few { clients ≤ 8 }
    requires there { number < clients }
    requires queues { first_blk plan.now ≤ 100 }
    requires numbers { first_blk_pool plan.now ≤ 100 }
    requires rows { pools.now ≡ pools_of plan.now }
    requires pools { HasBlkPools plan.now pools.now clients }
    requires asks { HasAsks trace.now clients }
    requires acts { HasActs Of.Blk trace.now.blk_acts clients }
    ensures new { IfOk result IsNew }
    ensures part { IfOk result (λ a. job_part plan.now trace.now (jobs.BlkClient number)
        ≡ Some (part_of a)) }
{
    if is_blk_rogue(plan, number as u64) {
        let pool = first_blk_pool(plan) + 1 + number;
        let first = first_blk(plan);
        Ok(Actor::Rogue(blk_rogue(alloc, first, pool, pools, trace, clients, number)?))
    } else {
        Ok(Actor::BlkClient(client(alloc, plan, pools, trace, number)?))
    }
}

/// The actor of a job of the block class, which has so many clients.
pub fn blk_actor(
    alloc: Global,
    plan: &Plan,
    pools: &[PoolRow],
    trace: &Trace,
    clients: u16,
    job: BlkJob,
) -> Result<Actor, Memory>
    requires clients { clients ≡ length (blk_clients plan.now) }
    requires few { clients ≤ 8 }
    requires queues { first_blk plan.now ≤ 100 }
    requires numbers { first_blk_pool plan.now ≤ 100 }
    requires rows { pools.now ≡ pools_of plan.now }
    requires pools { HasBlkPools plan.now pools.now clients }
    requires entries { (c : ℕ) → c < clients → client_entry plan.now c < 4 }
    requires asks { HasAsks trace.now clients }
    requires acts { HasActs Of.Blk trace.now.blk_acts clients }
    requires there { blk_within clients job }
    ensures new { IfOk result IsNew }
    ensures part { IfOk result (λ a. job_part plan.now trace.now (blk_job job)
        ≡ Some (part_of a)) }
{
    match job {
        BlkJob::Device => Ok(Actor::DiskDevice(disk(alloc, first_blk(plan), trace)?)),
        BlkJob::Driver => Ok(Actor::BlkDriver(driver(first_blk(plan)))),
        BlkJob::Virtualiser => {
            Ok(Actor::BlkVirt(virtualiser(alloc, plan, pools, trace, clients)?))
        }
        BlkJob::Client(c) => any_client(alloc, plan, pools, trace, clients, c),
    }
}
