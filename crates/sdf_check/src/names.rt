//! The places of regions and domains by their names: of equal names, the first counts.
ghost use Rattle.std.specs.Prelude.{◌≡◌, ◌∷◌, ◌++◌, List, [], ℕ, length, map, IfOk, OnOk, Option};
ghost use Rattle.sdf_check.specs.Lookups.{FindsPlaces};
ghost use Rattle.sdf_check.specs.Names.{place_of, region_names_of, domain_names_of};

use cargo_core::Memory;
use sdf_plan::{Domain, Region};
use std::alloc::Global;
use std::collections::BTreeMap;

/// For each name the place of the first element that has it.
pub type Places<'a> = BTreeMap<&'a str, usize>;

/// Notes the next name, whose place is `at`.
pub fn note<'a>(places: &mut Places<'a>, name: &'a str, at: usize) -> Result<(), Memory>
    ensures { OnOk result ((names : List (List ℕ)) → length names ≡ at
        → FindsPlaces places.old names → FindsPlaces places.new (names ++ name.now ∷ [])) }
{
    if !places.contains_key(name) {
        places.insert(name, at)?;
    }
    Ok(())
}

/// The places of the regions by their names.
pub fn regions_by_name<'a>(alloc: Global, regions: &'a [Region]) -> Result<Places<'a>, Memory>
    ensures { IfOk result (λ places. FindsPlaces places (region_names_of regions.now)) }
{
    let mut places = BTreeMap::new(alloc);
    for (at, region) in regions.iter().enumerate() {
        note(&mut places, region.name.as_str(), at)?;
    }
    Ok(places)
}

/// The places of the domains by their names.
pub fn domains_by_name<'a>(alloc: Global, domains: &'a [Domain]) -> Result<Places<'a>, Memory>
    ensures { IfOk result (λ places. FindsPlaces places (domain_names_of domains.now)) }
{
    let mut places = BTreeMap::new(alloc);
    for (at, domain) in domains.iter().enumerate() {
        note(&mut places, domain.name.as_str(), at)?;
    }
    Ok(places)
}

/// The place of the first element that has this name.
pub fn place_of(places: &Places<'_>, name: &str) -> Option<usize>
    ensures { (names : List (List ℕ)) → FindsPlaces places.now names
        → result ≡ place_of name.now names }
{
    places.get(name).copied()
}
