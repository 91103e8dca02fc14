//! Where each region lies: at its given base, or in file order behind all given ranges.
ghost use Rattle.std.specs.Prelude.{◌≡◌, ◌+◌, ◌*◌, ◌^◌, ◌≤◌, IfOk};
ghost use Rattle.region_layout.specs.Bases.{base_at, free_after, bases_of, floor_of, given_end};
ghost use Rattle.region_layout.specs.Bases.{round_up};
ghost use Rattle.region_layout.specs.Sizes.{AreSmallRegions, IsSmallRegion};

use cargo_core::{Memory, Series};
use sdf_plan::Region;
use std::alloc::Global;

/// The least address of a region that isn't given one.
const FIRST_FREE: u64 = 0x4000_0000;

// The base of each region.
pub fn bases_of(alloc: Global, regions: &[Region]) -> Result<Series<u64>, Memory>
    requires { AreSmallRegions regions.now }
    ensures { IfOk result (λ bases. bases ≡ bases_of regions.now) }
{
    let mut free = floor_of(regions);
    let mut bases = Series::new(alloc);
    for region in regions {
        let (base, after) = place(free, region);
        bases.push(base)?;
        free = after;
    }
    Ok(bases)
}

// The base of a region, and what is free behind it.
fn place(free: u64, region: &Region) -> (u64, u64)
    requires small { IsSmallRegion region.now }
    requires low { free ≤ 2 ^ 61 }
    ensures base { result.0 ≡ base_at free region.now }
    ensures free { result.1 ≡ free_after free region.now }
    ensures near { result.1 ≤ free + 2 ^ 31 }
{
    match region.phys_addr {
        Some(base) => (base, free),
        None => {
            let base = round_up(free, region.page_size);
            (base, base + region.size)
        }
    }
}

// What is free at first.
fn floor_of(regions: &[Region]) -> u64
    requires { AreSmallRegions regions.now }
    ensures floor { result ≡ floor_of regions.now }
    ensures low { result ≤ 2 ^ 40 }
{
    let mut floor = FIRST_FREE;
    for region in regions {
        floor = floor.max(given_end(region));
    }
    floor
}

// Where the range that a region is given ends; 0 where it is given none.
fn given_end(region: &Region) -> u64
    requires { IsSmallRegion region.now }
    ensures end { result ≡ given_end region.now }
    ensures low { result ≤ 2 ^ 40 }
{
    match region.phys_addr {
        Some(base) => base + region.size,
        None => 0,
    }
}

// The least multiple of a size that isn't below a number.
fn round_up(number: u64, size: u64) -> u64
    requires some { 1 ≤ size }
    requires low { number + size ≤ 2 ^ 62 }
    ensures up { result ≡ round_up number size }
    ensures above { number ≤ result }
    ensures near { result ≤ number + size }
{
    (number + (size - 1)) / size * size
}
