//! What the queues and the pools of the table take of their regions.
ghost use Rattle.std.specs.Prelude.{◌≡◌, ◌+◌, ◌*◌, ◌≤◌, ◌^◌, ◌<◌};
ghost use Rattle.sdf_plan.specs.ClassTable.Shown.{queue_shown, pool_shown};
ghost use Rattle.sdf_plan.specs.ClassTable.Sizes.{entry_size, queue_size, second_offset, offset_behind};
ghost use Rattle.sdf_plan.specs.ClassTable.Sizes.{queue_end, pool_bytes};

use crate::class_table::uses::{PoolUse, QueueUse};
use cargo_core::QueueKind;

// The bytes of an entry.
fn entry_size(kind: QueueKind) -> u128
    ensures size { result ≡ entry_size kind }
    ensures small { result ≤ 32 }
{
    match kind {
        QueueKind::Net | QueueKind::Resp => 16,
        QueueKind::Byte => 1,
        QueueKind::Req => 32,
    }
}

// The bytes of a queue: a header of 64, and its entries.
fn queue_size(kind: QueueKind, capacity: u64) -> u128
    ensures size { result ≡ queue_size kind capacity }
    ensures near { result ≤ 64 + 32 * capacity }
{
    64 + entry_size(kind) * capacity as u128
}

// The first multiple of 64 behind so many bytes.
fn second_offset(bytes: u128) -> u128
    requires { bytes < 2 ^ 70 }
    ensures offset { result ≡ second_offset bytes }
    ensures near { result ≤ bytes + 63 }
{
    (bytes + 63) / 64 * 64
}

// Where a queue begins in its region: behind one of a kind with as many entries, or at the front.
fn offset_behind(first: Option<QueueKind>, capacity: u64) -> u128
    ensures offset { result ≡ offset_behind first capacity }
    ensures near { result ≤ 127 + 32 * capacity }
{
    match first {
        Some(kind) => second_offset(queue_size(kind, capacity)),
        None => 0,
    }
}

/// Where a queue begins in its region, counted from the region's begin; 0 where it stands in none.
pub fn queue_offset(queue: &QueueUse<&str>) -> u128
    ensures offset { result ≡ offset_behind queue.now.behind queue.now.capacity }
    ensures near { result ≤ 127 + 32 * queue.now.capacity }
{
    offset_behind(queue.behind, queue.capacity)
}

/// Where a queue ends in its region, counted from the region's begin.
pub fn queue_end(queue: &QueueUse<&str>) -> u128
    ensures { result ≡ queue_end (queue_shown queue.now) }
{
    queue_offset(queue) + queue_size(queue.kind, queue.capacity)
}

/// The bytes of all buffers of a pool.
pub fn pool_bytes(pool: &PoolUse<&str>) -> u128
    ensures { result ≡ pool_bytes (pool_shown pool.now) }
{
    pool.size as u128 * pool.buffers as u128
}
