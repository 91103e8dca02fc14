//! The questions that the rules on classes share: of domains, channels, maps and strangers.
ghost use Rattle.std.specs.Prelude.{◌≡◌, ◌↔◌, ◌<◌, ℕ, List, length, IsTrue, IsSomeAnd, Some, None};
ghost use Rattle.std.specs.Prelude.{MatchOption};
ghost use Rattle.sdf_plan.specs.declared.plan.Map.{Map};
ghost use Rattle.sdf_check.specs.Lookups.{FindsPlaces, names_shown};
ghost use Rattle.sdf_check.specs.ClassRules.{SomeOf, the_domain, Joins, AreJoined, HasInterrupt};
ghost use Rattle.sdf_check.specs.ClassRules.{Grants, IsGranted, IsStranger, HasStranger, IsSmaller};
ghost use Rattle.sdf_plan.specs.ClassTable.Roles.{IsProgramOf};

use crate::judge::{Judge, at, is_same};
use crate::names::{Places, place_of};
use crate::sizes::allow_use;
use sdf_plan::class_table::{Role, is_program_of, nth};
use sdf_plan::{Channel, Domain, Map};

/// The domain that has a name.
fn the_domain<'b>(judge: &'b Judge<'_>, name: &str) -> Option<&'b Domain>
    ensures { MatchOption result (the_domain judge.now.plan.now name.now ≡ None)
        (λ domain. the_domain judge.now.plan.now name.now ≡ Some domain.now) }
{
    match place_of(&judge.domains, name) {
        Some(at) => nth(&judge.plan.protection_domain, at),
        None => None,
    }
}

/// Whether the domain of a name runs a program of a role.
pub fn plays(judge: &Judge<'_>, name: &str, role: Role) -> bool
    ensures { IsTrue result ↔ IsSomeAnd (the_domain judge.now.plan.now name.now)
        (λ domain. IsProgramOf role domain.program) }
{
    match the_domain(judge, name) {
        Some(domain) => is_program_of(role, domain.program.as_str()),
        None => false,
    }
}

fn joins(channel: &Channel, first: &str, second: &str) -> bool
    ensures { IsTrue result ↔ Joins (first.now, second.now) channel.now }
{
    match (at(&channel.end, 0), at(&channel.end, 1)) {
        (Some(one), Some(other)) => {
            is_same(one.pd.as_str(), first) && is_same(other.pd.as_str(), second)
                || is_same(one.pd.as_str(), second) && is_same(other.pd.as_str(), first)
        }
        _ => false,
    }
}

/// Whether a channel joins two domains. Where this is asked there are at most 63 domains with 63
/// ids each, and so at most 1,984 channels.
pub fn are_joined(judge: &Judge<'_>, first: &str, second: &str) -> bool
    ensures { IsTrue result ↔ AreJoined judge.now.plan.now (first.now, second.now) }
{
    judge
        .plan
        .channel
        .as_slice()
        .iter()
        .any(|channel| joins(channel, first, second))
}

/// Whether the domain of a name has an interrupt.
pub fn has_interrupt(judge: &Judge<'_>, name: &str) -> bool
    ensures { IsTrue result ↔ HasInterrupt judge.now.plan.now name.now }
{
    match the_domain(judge, name) {
        Some(domain) => domain.irq.len() > 0,
        None => false,
    }
}

fn grants(map: &Map, region: &str, writes: bool) -> bool
    ensures { IsTrue result ↔ Grants region.now writes map.now }
{
    is_same(map.mr.as_str(), region) && allow_use(map.perms.as_str(), writes)
}

fn one_grants(maps: &[Map], region: &str, writes: bool) -> bool
    ensures { IsTrue result ↔ SomeOf (Grants region.now writes) maps.now }
{
    maps.iter().any(|map| grants(map, region, writes))
}

/// Whether the domain of a name maps a region, to read it, and to write it too where that is asked.
pub fn is_granted(judge: &Judge<'_>, name: &str, region: &str, writes: bool) -> bool
    ensures { IsTrue result ↔ IsGranted judge.now.plan.now (name.now, region.now, writes) }
{
    match the_domain(judge, name) {
        Some(domain) => one_grants(domain.map.as_slice(), region, writes),
        None => false,
    }
}

/// Whether a name is among others.
pub fn is_among(name: &str, names: &[&str]) -> bool
    ensures { IsTrue result ↔ SomeOf (λ other. other ≡ name.now) (names_shown names.now) }
{
    for other in names {
        if is_same(*other, name) {
            return true;
        }
    }
    false
}

/// Whether one of these maps is of a region.
pub fn maps_region(maps: &[Map], region: &str) -> bool
    ensures { IsTrue result ↔ SomeOf (λ (m : Map). m.mr ≡ region.now) maps.now }
{
    maps.iter().any(|map| is_same(map.mr.as_str(), region))
}

/// Whether a domain of none of these names maps a region. Where this is asked there are at most 63
/// domains, and so at most 63 times as many keys as one element has.
pub fn has_stranger(judge: &Judge<'_>, region: &str, allowed: &[&str]) -> bool
    ensures { IsTrue result ↔ HasStranger judge.now.plan.now region.now (names_shown allowed.now) }
{
    judge
        .plan
        .protection_domain
        .as_slice()
        .iter()
        .any(|domain| is_outsider(domain, region, allowed))
}

fn is_outsider(domain: &Domain, region: &str, allowed: &[&str]) -> bool
    ensures { IsTrue result ↔ IsStranger region.now (names_shown allowed.now) domain.now }
{
    !is_among(domain.name.as_str(), allowed) && maps_region(domain.map.as_slice(), region)
}

/// Whether the region of a name is smaller than so many bytes.
pub fn is_smaller(judge: &Judge<'_>, name: &str, size: u128) -> bool
    ensures { IsTrue result ↔ IsSmaller judge.now.plan.now (name.now, size) }
{
    match judge.region(name) {
        Some(region) => (region.size as u128) < size,
        None => false,
    }
}

/// Whether a name stands at a key.
pub fn is_named(keys: &Places<'_>, name: &str) -> bool
    ensures { (all : List (List ℕ)) → FindsPlaces keys.now all
        → (IsTrue result ↔ SomeOf (λ other. other ≡ name.now) all) }
{
    match place_of(keys, name) {
        Some(_) => true,
        None => false,
    }
}
