//! The text of a layout, which `layout` prints.

ghost use Rattle.std.specs.Prelude.{◌≡◌, [], ◌∷◌, ◌++◌, map, IfOk, OnOk, string_bytes};
ghost use Rattle.report_text.specs.Lines.{text_of};
ghost use Rattle.report_text.specs.Reports.{each_numbered};
ghost use Rattle.report_text.specs.Layouts.{name_at, region_name, region_line, region_lines};
ghost use Rattle.report_text.specs.Layouts.{layout_pool_line, queue_region, queue_line};
ghost use Rattle.report_text.specs.Layouts.{layout_text};

use cargo_core::{Memory, Text};
use region_layout::{Layout, PoolRow, QueueRow};
use sdf_plan::{Plan, Region};
use std::alloc::Global;

// The name at a place of a list; nothing where the list ends before it.
pub fn name_at(names: &[Text], k: usize) -> &str
    ensures { result.now ≡ name_at names.now k }
{
    match names.get(k) {
        Some(name) => name.as_str(),
        None => "",
    }
}

// The name of the region at a place; nothing where the regions end before it.
fn region_name(regions: &[Region], r: u32) -> &str
    ensures { result.now ≡ region_name regions.now r }
{
    match regions.get(r as usize) {
        Some(region) => region.name.as_str(),
        None => "",
    }
}

// The name of the region of a queue.
fn queue_region(regions: &[Region], region: Option<u32>) -> &str
    ensures { result.now ≡ queue_region regions.now region }
{
    match region {
        Some(r) => region_name(regions, r),
        None => "-",
    }
}

// Appends a region.
fn add_region(to: &mut String, region: &Region, base: u64) -> Result<(), Memory>
    ensures { OnOk result (string_bytes to.new ≡ string_bytes to.old
        ++ text_of (region_line region.now base ∷ [])) }
{
    write!(
        to,
        "region {} 0x{:x} 0x{:x}\n",
        region.name.as_str(),
        base,
        region.size
    )?;
    Ok(())
}

// Appends each region that has a base.
fn add_regions(to: &mut String, regions: &[Region], bases: &[u64]) -> Result<(), Memory>
    ensures { OnOk result (string_bytes to.new ≡ string_bytes to.old
        ++ text_of (region_lines regions.now bases.now)) }
{
    for k in 0..regions.len().min(bases.len()) {
        add_region(to, &regions[k], bases[k])?;
    }
    Ok(())
}

// Appends a pool.
fn add_pool(to: &mut String, regions: &[Region], pool: &PoolRow) -> Result<(), Memory>
    ensures { OnOk result (string_bytes to.new ≡ string_bytes to.old
        ++ text_of (layout_pool_line regions.now pool.now ∷ [])) }
{
    let region = region_name(regions, pool.region);
    write!(
        to,
        "pool {} {} 0x{:x}",
        pool.name.as_str(),
        region,
        pool.base
    )?;
    write!(to, " {} {}\n", pool.buffers, pool.size)?;
    Ok(())
}

// Appends each pool.
fn add_pools(to: &mut String, regions: &[Region], pools: &[PoolRow]) -> Result<(), Memory>
    ensures { OnOk result (string_bytes to.new ≡ string_bytes to.old
        ++ text_of (map (layout_pool_line regions.now) pools.now)) }
{
    for k in 0..pools.len() {
        add_pool(to, regions, &pools[k])?;
    }
    Ok(())
}

// Appends a queue.
fn add_queue(
    to: &mut String,
    regions: &[Region],
    actors: &[Text],
    n: usize,
    queue: &QueueRow,
) -> Result<(), Memory>
    ensures { OnOk result (string_bytes to.new ≡ string_bytes to.old
        ++ text_of (queue_line regions.now actors.now n queue.now ∷ [])) }
{
    let producer = name_at(actors, queue.producer.0 as usize);
    let consumer = name_at(actors, queue.consumer.0 as usize);
    let region = queue_region(regions, queue.region);
    write!(to, "queue {} {} {}", n, queue.name.as_str(), producer)?;
    write!(to, " {} {}", consumer, region)?;
    write!(to, " 0x{:x} {}\n", queue.offset, queue.capacity)?;
    Ok(())
}

// Appends each queue, with its number.
fn add_queues(
    to: &mut String,
    regions: &[Region],
    actors: &[Text],
    queues: &[QueueRow],
) -> Result<(), Memory>
    ensures { OnOk result (string_bytes to.new ≡ string_bytes to.old ++ text_of (each_numbered
        (λ n queue. queue_line regions.now actors.now n queue ∷ []) 0 queues.now)) }
{
    for k in 0..queues.len() {
        add_queue(to, regions, actors, k, &queues[k])?;
    }
    Ok(())
}

/// The text of a plan's layout: a line for each region, each pool and each queue. Bases, sizes of
/// regions and offsets print in hexadecimal, all else in decimal. The spellings are this project's
/// own; the only error is want of memory.
pub fn write_layout(alloc: Global, plan: &Plan, layout: &Layout) -> Result<String, Memory>
    ensures { IfOk result (λ s. string_bytes s ≡ layout_text plan.now layout.now) }
{
    let mut text = String::new(alloc);
    let regions = plan.memory_region.as_slice();
    add_regions(&mut text, regions, layout.bases.as_slice())?;
    add_pools(&mut text, regions, layout.pools())?;
    add_queues(&mut text, regions, layout.actors(), layout.queues())?;
    Ok(text)
}
