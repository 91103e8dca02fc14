//! The table of uses: for each domain and id, the first end of a channel that has them.
ghost use Rattle.std.specs.Prelude.{◌≡◌, ◌+◌, ◌<◌, ◌↔◌, ℕ, IsTrue, Some, None, Option, MatchOption};
ghost use Rattle.std.specs.Prelude.{IfOk, OnOk, length};
ghost use Rattle.std.specs.BTreeMap.{get};
ghost use Rattle.sdf_plan.specs.declared.plan.Plan.{Plan};
ghost use Rattle.sdf_plan.specs.Elements.{OfEnd, OfChannel};
ghost use Rattle.sdf_check.specs.Lookups.{FindsPlaces};
ghost use Rattle.sdf_check.specs.Names.{domain_names};
ghost use Rattle.sdf_check.specs.Rules.{EarlierEndHas, IsEarlierEnd};
ghost use Rattle.sdf_check.specs.Uses.{use_cmp, UsesUpTo};

use crate::names::{Places, place_of};
use cargo_core::Memory;
use sdf_plan::{Channel, End, Plan};
use std::alloc::Global;
use std::collections::BTreeMap;

/// For each domain and id the first end that has them, as the places of the channel and of the end
/// in it.
pub type Uses = BTreeMap<(usize, u64), (usize, usize)>;

// Notes the end at these places.
fn note(
    uses: &mut Uses,
    domains: &Places<'_>,
    end: &End,
    channel: usize,
    at: usize,
) -> Result<(), Memory>
    ensures { OnOk result ((plan : Plan) → FindsPlaces domains.now (domain_names plan)
        → OfEnd plan channel at (λ other. other ≡ end.now)
        → UsesUpTo (get use_cmp uses.old) plan channel at
        → UsesUpTo (get use_cmp uses.new) plan channel (at + 1)) }
{
    let Some(domain) = place_of(domains, end.pd.as_str()) else {
        return Ok(());
    };
    let key = (domain, end.id);
    if uses.contains_key(&key) {
        return Ok(());
    }
    uses.insert(key, (channel, at))?;
    Ok(())
}

fn note_ends(
    uses: &mut Uses,
    domains: &Places<'_>,
    channel: &Channel,
    number: usize,
) -> Result<(), Memory>
    ensures { OnOk result ((plan : Plan) → FindsPlaces domains.now (domain_names plan)
        → OfChannel plan number (λ other. other ≡ channel.now)
        → UsesUpTo (get use_cmp uses.old) plan number 0
        → UsesUpTo (get use_cmp uses.new) plan (number + 1) 0) }
{
    for (at, end) in channel.end.as_slice().iter().enumerate() {
        note(uses, domains, end, number, at)?;
    }
    Ok(())
}

/// The first end of each domain and id.
pub fn uses_of(alloc: Global, plan: &Plan, domains: &Places<'_>) -> Result<Uses, Memory>
    requires { FindsPlaces domains.now (domain_names plan.now) }
    ensures { IfOk result (λ uses. UsesUpTo (get use_cmp uses) plan.now
        (length plan.now.channel) 0) }
{
    let mut uses = BTreeMap::new(alloc);
    for (number, channel) in plan.channel.as_slice().iter().enumerate() {
        note_ends(&mut uses, domains, channel, number)?;
    }
    Ok(uses)
}

/// Whether an end before this one has this id in this domain.
pub fn is_used_before(uses: &Uses, domain: usize, id: u64, channel: u32, at: u32) -> bool
    ensures { (plan : Plan) → UsesUpTo (get use_cmp uses.now) plan (length plan.channel) 0
        → (IsTrue result ↔ EarlierEndHas plan channel at domain id) }
{
    match uses.get(&(domain, id)) {
        Some((first, place)) => is_earlier(*first, *place, channel as usize, at as usize),
        None => false,
    }
}

fn is_earlier(first: usize, place: usize, channel: usize, at: usize) -> bool
    ensures { IsTrue result ↔ IsEarlierEnd first place channel at }
{
    first < channel || first == channel && place < at
}
