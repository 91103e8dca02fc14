//! The judge, a plan with its names looked up, its tables, and the rules on any system that need no
//! table.
ghost use Rattle.std.specs.Prelude.{◌≡◌, ◌↔◌, ◌^◌, ℕ, List, length, IsTrue, IsNone, Some, None};
ghost use Rattle.std.specs.Prelude.{MatchOption, slice_get};
ghost use Rattle.sdf_check.specs.Lookups.{FindsPlaces};
ghost use Rattle.sdf_check.specs.Names.{region_names, domain_names, region_named, domain_named};
ghost use Rattle.sdf_check.specs.Names.{StandsBefore};
ghost use Rattle.sdf_check.specs.Rules.{TakesName, IsPastLastDomain, HasPriorityTooHigh};
ghost use Rattle.sdf_check.specs.Rules.{HasPeriodTooShort, HasBadSize, HasBadPageSize};
ghost use Rattle.sdf_check.specs.Rules.{HasBadPhysAddr, NamesNoRegion, HasBadVaddr, HasBadPerms};
ghost use Rattle.sdf_check.specs.Rules.{NamesNoDomain, HasIdTooHigh, JoinsOneDomain, the_region};

use crate::keys::Keys;
use crate::names::{Places, place_of};
use crate::numbers::{are_permissions, ends_above, is_multiple, is_page_size};
use crate::uses::Uses;
use cargo_core::Series;
use sdf_plan::class_table::{Classes, nth};
use sdf_plan::{Place, Plan, Region};

/// What is found out once about a plan: its classes, its ranges and its ids.
#[derive(Drop)]
pub struct Tables<'a> {
    /// The elements of the classes, with their rows.
    pub classes: Classes<'a>,
    /// The first region whose given range meets an earlier one.
    pub given: Option<usize>,
    /// For each domain the first of its maps that meets an earlier one.
    pub maps: Series<Option<usize>>,
    /// For each domain and id the first end that has them.
    pub uses: Uses,
    /// The domains and the regions that class elements name.
    pub named_domains: Keys<'a>,
    pub named_regions: Keys<'a>,
}

/// A plan with what its names are the names of.
#[derive(Drop)]
pub struct Judge<'a> {
    pub plan: &'a Plan,
    pub regions: Places<'a>,
    pub domains: Places<'a>,
    ghost regions_found: { FindsPlaces regions (region_names plan.now) },
    ghost domains_found: { FindsPlaces domains (domain_names plan.now) },
}

/// The element at a place in file order.
pub fn at<T>(items: &Series<T>, number: u32) -> Option<&T>
    ensures { MatchOption result (slice_get items.now number ≡ None)
        (λ item. slice_get items.now number ≡ Some item.now) }
{
    nth(items, number as usize)
}

/// Whether two texts are equal.
pub fn is_same(first: &str, second: &str) -> bool
    ensures { IsTrue result ↔ (first.now ≡ second.now) }
{
    first == second
}

// Whether a name stands before a place.
fn stands_before(places: &Places<'_>, name: &str, number: u32) -> bool
    ensures { (names : List (List ℕ)) → FindsPlaces places.now names
        → (IsTrue result ↔ StandsBefore name.now names number) }
{
    match place_of(places, name) {
        Some(first) => first < number as usize,
        None => false,
    }
}

impl Judge<'_> {
    /// Whether no region has a name.
    pub fn lacks_region(&self, name: &str) -> bool
        ensures { IsTrue result ↔ IsNone (region_named self.now.plan.now name.now) }
    {
        place_of(&self.regions, name).is_none()
    }

    /// Whether no domain has a name.
    pub fn lacks_domain(&self, name: &str) -> bool
        ensures { IsTrue result ↔ IsNone (domain_named self.now.plan.now name.now) }
    {
        place_of(&self.domains, name).is_none()
    }

    /// The region that has a name.
    pub fn region(&self, name: &str) -> Option<&Region>
        ensures { MatchOption result (the_region self.now.plan.now name.now ≡ None)
            (λ region. the_region self.now.plan.now name.now ≡ Some region.now) }
    {
        match place_of(&self.regions, name) {
            Some(at) => self.plan.memory_region.as_slice().get(at),
            None => None,
        }
    }

    pub fn takes_name(&self, place: Place) -> bool
        ensures { IsTrue result ↔ TakesName self.now.plan.now place }
    {
        match place {
            Place::Region(r) => match at(&self.plan.memory_region, r) {
                Some(region) => stands_before(&self.regions, region.name.as_str(), r),
                None => false,
            },
            Place::Domain(d) => match at(&self.plan.protection_domain, d) {
                Some(domain) => stands_before(&self.domains, domain.name.as_str(), d),
                None => false,
            },
            _ => false,
        }
    }

    pub fn is_past_last_domain(&self, place: Place) -> bool
        ensures { IsTrue result ↔ IsPastLastDomain self.now.plan.now place }
    {
        match place {
            Place::Domain(d) => d >= 63 && (d as usize) < self.plan.protection_domain.len(),
            _ => false,
        }
    }

    pub fn has_priority_too_high(&self, place: Place) -> bool
        ensures { IsTrue result ↔ HasPriorityTooHigh self.now.plan.now place }
    {
        match place {
            Place::Domain(d) => match at(&self.plan.protection_domain, d) {
                Some(domain) => domain.priority > 254,
                None => false,
            },
            _ => false,
        }
    }

    pub fn has_period_too_short(&self, place: Place) -> bool
        ensures { IsTrue result ↔ HasPeriodTooShort self.now.plan.now place }
    {
        match place {
            Place::Domain(d) => match at(&self.plan.protection_domain, d) {
                Some(domain) => domain.period < domain.budget,
                None => false,
            },
            _ => false,
        }
    }

    pub fn has_bad_size(&self, place: Place) -> bool
        ensures { IsTrue result ↔ HasBadSize self.now.plan.now place }
    {
        match place {
            Place::Region(r) => match at(&self.plan.memory_region, r) {
                Some(region) => {
                    region.size == 0
                        || region.size > 0x4000_0000
                        || is_page_size(region.page_size)
                            && !is_multiple(region.size, region.page_size)
                }
                None => false,
            },
            _ => false,
        }
    }

    pub fn has_bad_page_size(&self, place: Place) -> bool
        ensures { IsTrue result ↔ HasBadPageSize self.now.plan.now place }
    {
        match place {
            Place::Region(r) => match at(&self.plan.memory_region, r) {
                Some(region) => !is_page_size(region.page_size),
                None => false,
            },
            _ => false,
        }
    }

    pub fn has_bad_phys_addr(&self, place: Place) -> bool
        ensures { IsTrue result ↔ HasBadPhysAddr self.now.plan.now place }
    {
        match place {
            Place::Region(r) => match at(&self.plan.memory_region, r) {
                Some(region) => match region.phys_addr {
                    Some(base) => !is_multiple(base, region.page_size)
                        || ends_above(base, region.size, 1 << 40),
                    None => false,
                },
                None => false,
            },
            _ => false,
        }
    }

    pub fn has_id_too_high(&self, place: Place) -> bool
        ensures { IsTrue result ↔ HasIdTooHigh self.now.plan.now place }
    {
        match place {
            Place::Irq(d, i) => match at(&self.plan.protection_domain, d) {
                Some(domain) => match at(&domain.irq, i) {
                    Some(irq) => irq.id > 62,
                    None => false,
                },
                None => false,
            },
            Place::End(c, e) => match at(&self.plan.channel, c) {
                Some(channel) => match at(&channel.end, e) {
                    Some(end) => end.id > 62,
                    None => false,
                },
                None => false,
            },
            _ => false,
        }
    }

    pub fn has_bad_vaddr(&self, place: Place) -> bool
        ensures { IsTrue result ↔ HasBadVaddr self.now.plan.now place }
    {
        match place {
            Place::Map(d, m) => match at(&self.plan.protection_domain, d) {
                Some(domain) => match at(&domain.map, m) {
                    Some(map) => match self.region(map.mr.as_str()) {
                        Some(region) => {
                            !is_multiple(map.vaddr, region.page_size)
                                || ends_above(map.vaddr, region.size, 1 << 38)
                        }
                        None => false,
                    },
                    None => false,
                },
                None => false,
            },
            _ => false,
        }
    }

    pub fn has_bad_perms(&self, place: Place) -> bool
        ensures { IsTrue result ↔ HasBadPerms self.now.plan.now place }
    {
        match place {
            Place::Map(d, m) => match at(&self.plan.protection_domain, d) {
                Some(domain) => match at(&domain.map, m) {
                    Some(map) => !are_permissions(map.perms.as_str()),
                    None => false,
                },
                None => false,
            },
            _ => false,
        }
    }

    pub fn names_no_region(&self, place: Place) -> bool
        ensures { IsTrue result ↔ NamesNoRegion self.now.plan.now place }
    {
        match place {
            Place::Map(d, m) => match at(&self.plan.protection_domain, d) {
                Some(domain) => match at(&domain.map, m) {
                    Some(map) => self.lacks_region(map.mr.as_str()),
                    None => false,
                },
                None => false,
            },
            _ => false,
        }
    }

    pub fn names_no_domain(&self, place: Place) -> bool
        ensures { IsTrue result ↔ NamesNoDomain self.now.plan.now place }
    {
        match place {
            Place::End(c, e) => match at(&self.plan.channel, c) {
                Some(channel) => match at(&channel.end, e) {
                    Some(end) => self.lacks_domain(end.pd.as_str()),
                    None => false,
                },
                None => false,
            },
            _ => false,
        }
    }

    pub fn joins_one_domain(&self, place: Place) -> bool
        ensures { IsTrue result ↔ JoinsOneDomain self.now.plan.now place }
    {
        match place {
            Place::Channel(c) => match at(&self.plan.channel, c) {
                Some(channel) => match (at(&channel.end, 0), at(&channel.end, 1)) {
                    (Some(first), Some(second)) => is_same(first.pd.as_str(), second.pd.as_str()),
                    _ => false,
                },
                None => false,
            },
            _ => false,
        }
    }
}
