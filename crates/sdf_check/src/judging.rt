//! Judging a plan: the least rule that is broken, and the first element that breaks it.
ghost use Rattle.std.specs.Prelude.{◌≡◌, ◌↔◌, ℕ, MatchOption, MatchResult, IsTrue, Ok, Some, IfOk};
ghost use Rattle.std.specs.Prelude.{OnOk, slice_get};
ghost use Rattle.std.specs.BTreeMap.{get};
ghost use Rattle.sdf_plan.specs.Places.{walk, IsKept, IsFirstBroken};
ghost use Rattle.sdf_plan.specs.ClassTable.Order.{number_of};
ghost use Rattle.sdf_plan.specs.ClassTable.Shown.{element_shown};
ghost use Rattle.sdf_plan.specs.ClassTable.Table.{OfElement, table_of};
ghost use Rattle.sdf_plan.specs.Elements.{outline_of, IsNumbered};
ghost use Rattle.sdf_check.specs.Priors.{OrPrior, AreTables};
ghost use Rattle.sdf_check.specs.Valid.{Valid, IsRefused, IfRefused, broken, BreaksAtPlace};
ghost use Rattle.sdf_check.specs.Valid.{BreaksPlanRule, BreaksClassRule, BreaksByRows};

use crate::class_ids::{has_bad_mac, has_bad_partition};
use crate::counts::is_past_limit;
use crate::frames::{has_bad_buffer_size, has_bad_max_frame};
use crate::judge::{Judge, Tables};
use crate::keys::{Named, keys_of};
use crate::names::{domains_by_name, regions_by_name};
use crate::repeats::{gives_bad_role, lacks_role, shares_region};
use crate::rows::{
    has_bad_capacity, has_low_capacity, lacks_channel, lacks_right, lacks_room, uses_no_domain,
    uses_no_region,
};
use crate::sought::{meets_given_range, meets_map, takes_id};
use crate::tables::{first_given, first_maps};
use crate::uses::uses_of;
use cargo_core::{Memory, Series};
use sdf_plan::class_table::{ClassElement, classes_of};
use sdf_plan::{Place, Plan, Refusal, SdfFault, places_of};
use std::alloc::Global;

/// The first rule that a plan is judged by; the reader of descriptions judges those before.
const FIRST_RULE: u8 = 5;

/// The last rule.
const LAST_RULE: u8 = 32;

fn judge_of<'a>(alloc: Global, plan: &'a Plan) -> Result<Judge<'a>, Memory>
    ensures { IfOk result (λ judge. judge.plan.now ≡ plan.now) }
{
    Ok(Judge {
        plan,
        regions: regions_by_name(alloc, plan.memory_region.as_slice())?,
        domains: domains_by_name(alloc, plan.protection_domain.as_slice())?,
    })
}

fn tables_of<'a>(alloc: Global, judge: &Judge<'a>) -> Result<Tables<'a>, Memory>
    requires { IsNumbered judge.now.plan.now }
    ensures { IfOk result (λ tables. AreTables tables judge.now.plan.now) }
{
    let classes = classes_of(alloc, judge.plan)?;
    let given = first_given(alloc, judge.plan.memory_region.as_slice())?;
    let maps = Series::from_vec(first_maps(alloc, judge)?);
    let uses = uses_of(alloc, judge.plan, &judge.domains)?;
    let named_domains = keys_of(alloc, &classes, Named::Domains)?;
    let named_regions = keys_of(alloc, &classes, Named::Regions)?;
    Ok(Tables {
        classes,
        given,
        maps,
        uses,
        named_domains,
        named_regions,
    })
}

// Whether the element at a place breaks a rule on any system. Where no place prior to it does, the
// answer is exact.
fn breaks_plan_rule(judge: &Judge<'_>, tables: &Tables<'_>, rule: u8, place: Place) -> bool
    requires { AreTables tables.now judge.now.plan.now }
    ensures complete { BreaksPlanRule judge.now.plan.now rule place → IsTrue result }
    ensures sound { IsTrue result → OrPrior (BreaksPlanRule judge.now.plan.now rule) place }
{
    match rule {
        5 => judge.takes_name(place),
        6 => judge.is_past_last_domain(place),
        7 => judge.has_priority_too_high(place),
        8 => judge.has_period_too_short(place),
        9 => judge.has_bad_size(place),
        10 => judge.has_bad_page_size(place),
        11 => judge.has_bad_phys_addr(place),
        12 => meets_given_range(judge, tables, place),
        13 => judge.names_no_region(place),
        14 => judge.has_bad_vaddr(place),
        15 => meets_map(judge, tables, place),
        16 => judge.has_bad_perms(place),
        17 => judge.names_no_domain(place),
        18 => judge.has_id_too_high(place),
        19 => takes_id(judge, &tables.uses, place),
        20 => judge.joins_one_domain(place),
        _ => false,
    }
}

// Whether the element at a place breaks a rule on domains, ids, counts and frames.
fn breaks_class_rule(judge: &Judge<'_>, tables: &Tables<'_>, rule: u8, place: Place) -> bool
    requires { AreTables tables.now judge.now.plan.now }
    ensures { IsTrue result ↔ BreaksClassRule judge.now.plan.now rule place }
{
    match rule {
        21 => lacks_role(judge, tables, place),
        28 => has_bad_mac(judge, place),
        29 => has_bad_partition(judge, place),
        30 => is_past_limit(judge, place),
        31 => has_bad_max_frame(judge, place),
        32 => has_bad_buffer_size(judge, place),
        _ => false,
    }
}

// Whether the element at a place breaks a rule that is told of the place alone. Where no place
// prior to it does, the answer is exact.
fn breaks_at_place(judge: &Judge<'_>, tables: &Tables<'_>, rule: u8, place: Place) -> bool
    requires { AreTables tables.now judge.now.plan.now }
    ensures complete { BreaksAtPlace judge.now.plan.now rule place → IsTrue result }
    ensures sound { IsTrue result → OrPrior (BreaksAtPlace judge.now.plan.now rule) place }
{
    if rule < 21 {
        breaks_plan_rule(judge, tables, rule, place)
    } else {
        breaks_class_rule(judge, tables, rule, place)
    }
}

// Whether the rows of an element of a class break a rule.
fn breaks_by_rows(
    judge: &Judge<'_>,
    tables: &Tables<'_>,
    rule: u8,
    element: &ClassElement<&str>,
) -> bool
    requires tables { AreTables tables.now judge.now.plan.now }
    requires stands { slice_get (table_of judge.now.plan.now)
        (number_of judge.now.plan.now element.now.place) ≡ Some (element_shown element.now) }
    ensures { IsTrue result ↔ BreaksByRows judge.now.plan.now rule (element_shown element.now) }
{
    match rule {
        13 => uses_no_region(judge, element),
        17 => uses_no_domain(judge, element),
        21 => gives_bad_role(judge, tables, element),
        22 => lacks_channel(judge, element),
        23 => lacks_right(judge, element),
        24 => shares_region(judge, tables, element),
        25 => has_bad_capacity(element),
        26 => has_low_capacity(element),
        27 => lacks_room(judge, element),
        _ => false,
    }
}

// Whether an element of a class stands at a place, and its rows break a rule.
fn element_breaks(judge: &Judge<'_>, tables: &Tables<'_>, rule: u8, place: Place) -> bool
    requires { AreTables tables.now judge.now.plan.now }
    ensures { IsTrue result ↔ OfElement judge.now.plan.now place
        (BreaksByRows judge.now.plan.now rule) }
{
    match tables.classes.at(place) {
        Some(element) => breaks_by_rows(judge, tables, rule, element),
        None => false,
    }
}

// Whether the element at a place breaks a rule. Where no place prior to it does, the answer is
// exact.
fn breaks(judge: &Judge<'_>, tables: &Tables<'_>, rule: u8, place: Place) -> bool
    requires { AreTables tables.now judge.now.plan.now }
    ensures complete { broken judge.now.plan.now rule place → IsTrue result }
    ensures sound { IsTrue result → OrPrior (broken judge.now.plan.now rule) place }
{
    breaks_at_place(judge, tables, rule, place) || element_breaks(judge, tables, rule, place)
}

// The first place that breaks a rule.
fn first_broken(judge: &Judge<'_>, tables: &Tables<'_>, rule: u8, places: &[Place]) -> Option<Place>
    requires tables { AreTables tables.now judge.now.plan.now }
    requires all { places.now ≡ walk (outline_of judge.now.plan.now) }
    ensures { MatchOption result (IsKept (broken judge.now.plan.now rule)
        (walk (outline_of judge.now.plan.now)))
        (λ place. IsFirstBroken (broken judge.now.plan.now rule)
        (walk (outline_of judge.now.plan.now)) place) }
{
    for place in places {
        if breaks(judge, tables, rule, *place) {
            return Some(*place);
        }
    }
    None
}

// The least rule that is broken, at the first place that breaks it.
fn refusal_of(alloc: Global, plan: &Plan) -> Result<Option<Refusal>, Memory>
    requires { IsNumbered plan.now }
    ensures { IfOk result (λ refusal. MatchOption refusal (Valid plan.now) (IsRefused plan.now)) }
{
    let judge = judge_of(alloc, plan)?;
    let tables = tables_of(alloc, &judge)?;
    let places = places_of(alloc, plan)?;
    for rule in FIRST_RULE..LAST_RULE + 1 {
        if let Some(place) = first_broken(&judge, &tables, rule, &places) {
            return Ok(Some(Refusal { rule, place }));
        }
    }
    Ok(None)
}

/// Judges a plan by the rules on names, sizes, ranges, permissions, ids and classes, 5 to 32.
/// `Refused` has the least rule that an element breaks, and the first element that breaks it, in
/// the order of the walk over a description. Want of memory may come at any plan.
pub fn check(alloc: Global, plan: &Plan) -> Result<(), SdfFault>
    requires { IsNumbered plan.now }
    ensures valid { OnOk result (Valid plan.now) }
    ensures refused { IfRefused result (IsRefused plan.now) }
{
    match refusal_of(alloc, plan) {
        Ok(None) => Ok(()),
        Ok(Some(refusal)) => Err(SdfFault::Refused(refusal)),
        Err(memory) => Err(SdfFault::Memory(memory)),
    }
}
