//! What is found out once about the ranges of a plan: the first that meet earlier ones.
ghost use Rattle.std.specs.Prelude.{◌≡◌, ℕ, map, IfOk, Some, slice_get, length, IsSomeAnd};
ghost use Rattle.std.specs.BTreeMap.{get};
ghost use Rattle.sdf_plan.specs.declared.plan.Domain.{Domain};
ghost use Rattle.sdf_check.specs.Rules.{given_range, map_range};
ghost use Rattle.sdf_check.specs.Meetings.{IsFirstMeeting, AreFirstMaps};

use crate::judge::Judge;
use crate::sweep::{Span, first_meeting};
use crate::uses::{Uses, uses_of};
use cargo_core::Memory;
use sdf_plan::{Domain, Map, Region};
use std::alloc::Global;

fn given_range(region: &Region) -> Option<Span>
    ensures { result ≡ given_range region.now }
{
    match region.phys_addr {
        Some(base) => Some((base as u128, base as u128 + region.size as u128)),
        None => None,
    }
}

fn map_range(judge: &Judge<'_>, map: &Map) -> Option<Span>
    ensures { result ≡ map_range judge.now.plan.now map.now }
{
    match judge.region(map.mr.as_str()) {
        Some(region) => Some((map.vaddr as u128, map.vaddr as u128 + region.size as u128)),
        None => None,
    }
}

/// The first region whose given range meets an earlier one.
pub fn first_given(alloc: Global, regions: &[Region]) -> Result<Option<usize>, Memory>
    ensures { IfOk result (λ first. IsFirstMeeting (map given_range regions.now) first) }
{
    let mut ranges = Vec::new(alloc);
    for region in regions {
        ranges.push(given_range(region))?;
    }
    first_meeting(alloc, &ranges)
}

// The first map of a domain that meets an earlier one.
fn first_map(alloc: Global, judge: &Judge<'_>, maps: &[Map]) -> Result<Option<usize>, Memory>
    ensures { IfOk result (λ first. IsFirstMeeting
        (map (map_range judge.now.plan.now) maps.now) first) }
{
    let mut ranges = Vec::new(alloc);
    for map in maps {
        ranges.push(map_range(judge, map))?;
    }
    first_meeting(alloc, &ranges)
}

/// For each domain the first map that meets an earlier one.
pub fn first_maps(alloc: Global, judge: &Judge<'_>) -> Result<Vec<Option<usize>>, Memory>
    ensures { IfOk result (λ firsts. AreFirstMaps judge.now.plan.now firsts.items) }
{
    let mut firsts = Vec::new(alloc);
    for domain in judge.plan.protection_domain.as_slice() {
        firsts.push(first_map(alloc, judge, domain.map.as_slice())?)?;
    }
    Ok(firsts)
}
