//! Pools of network buffers: their rows, their buffers, and the device addresses of those in which
//! clients send.
ghost use Rattle.std.specs.Prelude.{◌≡◌, ◌<◌, ◌≤◌, ◌+◌, ◌*◌, ◌^◌, length, map, IfOk};
ghost use Rattle.trace_text.specs.Traces.{per_client};
ghost use Rattle.cast_core.specs.Sources.{pool_at};
ghost use Rattle.cast_core.specs.Making.{new_page, tx_ends, tx_range, HaveRanges};

use cargo_core::{Memory, Page, PoolId, Ranges};
use net_virt_tx::TxEnds;
use std::alloc::Global;
use wire_core::{PoolRow, QueueId};

/// The row of a pool.
pub fn pool_row(rows: &[PoolRow], number: u16) -> &PoolRow
    requires { number < length rows.now }
    ensures base { result.now.base ≡ (pool_at rows.now number).base }
    ensures buffers { result.now.buffers ≡ (pool_at rows.now number).buffers }
    ensures size { result.now.size ≡ (pool_at rows.now number).size }
{
    &rows[number as usize]
}

/// So many buffers of a pool, in their order, of this size.
pub fn pages(alloc: Global, pool: u16, buffers: u32, size: u32) -> Result<Vec<Page>, Memory>
    ensures { IfOk result (λ pages. pages.items ≡ per_client buffers (new_page size pool)) }
{
    let mut pages = Vec::with_capacity(alloc, buffers as usize)?;
    for no in 0..buffers {
        pages.push(Page::new(alloc, PoolId(pool), no, size)?)?;
    }
    Ok(pages)
}

/// The clients as the sending virtualiser has them.
pub fn tx_ends(alloc: Global, rows: &[PoolRow], clients: u16) -> Result<Vec<TxEnds>, Memory>
    requires few { clients ≤ 8 }
    requires rows { 1 + 2 * clients ≤ length rows.now }
    ensures { IfOk result (λ ends. ends.items ≡ per_client clients (tx_ends rows.now)) }
{
    let mut ends = Vec::with_capacity(alloc, clients as usize)?;
    for c in 0..clients {
        let first = 8 + 6 * c;
        let pool = 2 + 2 * c;
        let row = pool_row(rows, pool);
        ends.push(TxEnds {
            active: QueueId(first + 4),
            free: QueueId(first + 5),
            pool: PoolId(pool),
            buffers: row.buffers,
            base: row.base,
            size: row.size,
        })?;
    }
    Ok(ends)
}

/// The device addresses of the clients' buffers.
pub fn ranges(alloc: Global, clients: &[TxEnds]) -> Result<Ranges, Memory>
    requires ranges { HaveRanges clients.now }
    requires few { length clients.now ≤ 8 }
    ensures { IfOk result (λ ranges. ranges ≡ map tx_range clients.now) }
{
    let mut ranges = Ranges::new(alloc);
    for client in clients {
        ranges.add(client.base, client.buffers as u64 * client.size as u64)?;
    }
    Ok(ranges)
}
