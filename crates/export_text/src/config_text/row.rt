//! The constants of regions, pools, queues and actors.
ghost use Rattle.std.specs.Prelude.{◌≡◌, ◌++◌, OnOk};
ghost use Rattle.export_text.specs.ConfigText.Lines.{each_numbered, if_there};
ghost use Rattle.export_text.specs.ConfigText.Config.{region_text, pool_text, queue_text, actor_text};
ghost use Rattle.export_text.specs.ConfigText.Config.{kind_number, decimal_of, hex_of};

use crate::config_text::line::{Thing, push_decimal, push_hex};
use cargo_core::{Bytes, Memory, QueueKind, Text};
use sdf_plan::Region;
use std::alloc::Global;
use wire_core::{PoolRow, QueueRow};

// Appends an address where there is one.
fn push_hex_if(
    alloc: Global,
    to: &mut Bytes,
    thing: &Thing<'_>,
    rest: &[u8],
    value: Option<u64>,
) -> Result<(), Memory>
    ensures { OnOk result (to.new ≡ to.old
        ++ if_there (hex_of thing.now.kind.now thing.now.name.now rest.now) value) }
{
    match value {
        Some(value) => push_hex(alloc, to, thing, rest, value),
        None => Ok(()),
    }
}

// Appends a number where there is one.
fn push_decimal_if(
    alloc: Global,
    to: &mut Bytes,
    thing: &Thing<'_>,
    rest: &[u8],
    value: Option<u32>,
) -> Result<(), Memory>
    ensures { OnOk result (to.new ≡ to.old
        ++ if_there (decimal_of thing.now.kind.now thing.now.name.now rest.now) value) }
{
    match value {
        Some(value) => push_decimal(alloc, to, thing, rest, u64::from(value)),
        None => Ok(()),
    }
}

// Appends a region.
fn push_region(alloc: Global, to: &mut Bytes, number: usize, region: &Region) -> Result<(), Memory>
    ensures { OnOk result (to.new ≡ to.old ++ region_text number region.now) }
{
    let thing = Thing {
        kind: "SDDF_REGION_",
        name: region.name.as_str(),
    };
    push_decimal(alloc, to, &thing, b"", number as u64)?;
    push_hex(alloc, to, &thing, b"_SIZE", region.size)?;
    push_hex_if(alloc, to, &thing, b"_PHYS_ADDR", region.phys_addr)?;
    Ok(())
}

/// Appends each region: its number in file order, its size, and its physical address where the
/// description gives it. The Microkit places the others.
pub fn push_regions(alloc: Global, to: &mut Bytes, regions: &[Region]) -> Result<(), Memory>
    ensures { OnOk result (to.new ≡ to.old ++ each_numbered region_text 0 regions.now) }
{
    for (at, region) in regions.iter().enumerate() {
        push_region(alloc, to, at, region)?;
    }
    Ok(())
}

// The number of a kind of queues.
fn kind_number(kind: QueueKind) -> u64
    ensures { result ≡ kind_number kind }
{
    match kind {
        QueueKind::Net => 0,
        QueueKind::Byte => 1,
        QueueKind::Req => 2,
        QueueKind::Resp => 3,
    }
}

// Appends a queue.
fn push_queue(alloc: Global, to: &mut Bytes, number: usize, queue: &QueueRow) -> Result<(), Memory>
    ensures { OnOk result (to.new ≡ to.old ++ queue_text number queue.now) }
{
    let thing = Thing {
        kind: "SDDF_QUEUE_",
        name: queue.name.as_str(),
    };
    push_decimal(alloc, to, &thing, b"", number as u64)?;
    push_decimal(alloc, to, &thing, b"_KIND", kind_number(queue.kind))?;
    push_decimal(alloc, to, &thing, b"_PRODUCER", u64::from(queue.producer.0))?;
    push_decimal(alloc, to, &thing, b"_CONSUMER", u64::from(queue.consumer.0))?;
    push_decimal(alloc, to, &thing, b"_CAPACITY", u64::from(queue.capacity))?;
    push_decimal_if(alloc, to, &thing, b"_REGION", queue.region)?;
    push_hex(alloc, to, &thing, b"_OFFSET", queue.offset)?;
    Ok(())
}

/// Appends each queue: its number, its kind, who puts and who takes by their numbers among the
/// actors, how many entries it holds, the number of its region, where it has one, and where it
/// begins there, in bytes.
pub fn push_queues(alloc: Global, to: &mut Bytes, queues: &[QueueRow]) -> Result<(), Memory>
    ensures { OnOk result (to.new ≡ to.old ++ each_numbered queue_text 0 queues.now) }
{
    for (at, queue) in queues.iter().enumerate() {
        push_queue(alloc, to, at, queue)?;
    }
    Ok(())
}

// Appends a pool.
fn push_pool(alloc: Global, to: &mut Bytes, number: usize, pool: &PoolRow) -> Result<(), Memory>
    ensures { OnOk result (to.new ≡ to.old ++ pool_text number pool.now) }
{
    let thing = Thing {
        kind: "SDDF_POOL_",
        name: pool.name.as_str(),
    };
    push_decimal(alloc, to, &thing, b"", number as u64)?;
    push_decimal(alloc, to, &thing, b"_REGION", u64::from(pool.region))?;
    push_decimal(alloc, to, &thing, b"_BUFFERS", u64::from(pool.buffers))?;
    push_decimal(alloc, to, &thing, b"_BUFFER_SIZE", u64::from(pool.size))?;
    Ok(())
}

/// Appends each pool: its number, the number of its region, and how many buffers it has, of how
/// many bytes each.
pub fn push_pools(alloc: Global, to: &mut Bytes, pools: &[PoolRow]) -> Result<(), Memory>
    ensures { OnOk result (to.new ≡ to.old ++ each_numbered pool_text 0 pools.now) }
{
    for (at, pool) in pools.iter().enumerate() {
        push_pool(alloc, to, at, pool)?;
    }
    Ok(())
}

// Appends an actor.
fn push_actor(alloc: Global, to: &mut Bytes, number: usize, name: &Text) -> Result<(), Memory>
    ensures { OnOk result (to.new ≡ to.old ++ actor_text number name.now) }
{
    let thing = Thing {
        kind: "SDDF_ACTOR_",
        name: name.as_str(),
    };
    push_decimal(alloc, to, &thing, b"", number as u64)
}

/// Appends each actor: the domains that act, and the devices.
pub fn push_actors(alloc: Global, to: &mut Bytes, actors: &[Text]) -> Result<(), Memory>
    ensures { OnOk result (to.new ≡ to.old ++ each_numbered actor_text 0 actors.now) }
{
    for (at, name) in actors.iter().enumerate() {
        push_actor(alloc, to, at, name)?;
    }
    Ok(())
}
