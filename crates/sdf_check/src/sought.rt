//! The rules on ranges and ids, answered from tables, so that no range and no end is held against
//! all before it.
ghost use Rattle.std.specs.Prelude.{◌≡◌, ◌↔◌, ℕ, List, map, length, ◌≤◌, IsTrue, Some, None};
ghost use Rattle.std.specs.Prelude.{IsSomeAnd};
ghost use Rattle.sdf_plan.specs.declared.plan.Irq.{Irq};
ghost use Rattle.std.specs.BTreeMap.{get};
ghost use Rattle.sdf_check.specs.Uses.{use_cmp, UsesUpTo};
ghost use Rattle.sdf_check.specs.Names.{StandsBefore};
ghost use Rattle.sdf_check.specs.Priors.{OrPrior, AreTables};
ghost use Rattle.sdf_check.specs.Rules.{MeetsGivenRange, MeetsMap, TakesId, InterruptHas};

use crate::judge::{Judge, Tables, at};
use crate::names::place_of;
use crate::uses::{Uses, is_used_before};
use cargo_core::Series;
use sdf_plan::class_table::nth;
use sdf_plan::{Irq, Place};

// Whether the first place that was found is this one or before it.
fn is_reached(first: Option<usize>, number: u32) -> bool
    ensures { IsTrue result ↔ IsSomeAnd first (λ at. at ≤ number) }
{
    match first {
        Some(at) => at <= number as usize,
        None => false,
    }
}

/// Whether a given range meets an earlier one, here or at a region before.
pub fn meets_given_range(judge: &Judge<'_>, tables: &Tables<'_>, place: Place) -> bool
    requires { AreTables tables.now judge.now.plan.now }
    ensures complete { MeetsGivenRange judge.now.plan.now place → IsTrue result }
    ensures sound { IsTrue result → OrPrior (MeetsGivenRange judge.now.plan.now) place }
{
    match place {
        Place::Region(r) => is_reached(tables.given, r),
        _ => false,
    }
}

/// Whether a map meets an earlier one of its domain, here or at a map before.
pub fn meets_map(judge: &Judge<'_>, tables: &Tables<'_>, place: Place) -> bool
    requires { AreTables tables.now judge.now.plan.now }
    ensures complete { MeetsMap judge.now.plan.now place → IsTrue result }
    ensures sound { IsTrue result → OrPrior (MeetsMap judge.now.plan.now) place }
{
    match place {
        Place::Map(d, m) => match at(&judge.plan.protection_domain, d) {
            Some(_) => match at(&tables.maps, d) {
                Some(first) => is_reached(*first, m),
                None => false,
            },
            None => false,
        },
        _ => false,
    }
}

// Whether one of the first interrupts of a domain has this id. Where this is asked the ids are at
// most 62, and no two of these interrupts have the same: at most 63 are looked at.
fn has_id_before(irqs: &Series<Irq>, id: u64, until: usize) -> bool
    ensures { IsTrue result ↔ StandsBefore id (map (λ (irq : Irq). irq.id) irqs.now) until }
{
    for at in 0..until.min(irqs.len()) {
        if irqs.get(at).id == id {
            return true;
        }
    }
    false
}

// Whether an interrupt of a domain has this id.
fn interrupt_has(judge: &Judge<'_>, domain: usize, id: u64) -> bool
    ensures { IsTrue result ↔ InterruptHas judge.now.plan.now domain id }
{
    match nth(&judge.plan.protection_domain, domain) {
        Some(domain) => has_id_before(&domain.irq, id, domain.irq.len()),
        None => false,
    }
}

/// Whether an id was used before in the same domain.
pub fn takes_id(judge: &Judge<'_>, uses: &Uses, place: Place) -> bool
    requires { UsesUpTo (get use_cmp uses.now) judge.now.plan.now
        (length judge.now.plan.now.channel) 0 }
    ensures { IsTrue result ↔ TakesId judge.now.plan.now place }
{
    match place {
        Place::Irq(d, i) => match at(&judge.plan.protection_domain, d) {
            Some(domain) => match at(&domain.irq, i) {
                Some(irq) => has_id_before(&domain.irq, irq.id, i as usize),
                None => false,
            },
            None => false,
        },
        Place::End(c, e) => match at(&judge.plan.channel, c) {
            Some(channel) => match at(&channel.end, e) {
                Some(end) => match place_of(&judge.domains, end.pd.as_str()) {
                    Some(domain) => {
                        interrupt_has(judge, domain, end.id)
                            || is_used_before(uses, domain, end.id, c, e)
                    }
                    None => false,
                },
                None => false,
            },
            None => false,
        },
        _ => false,
    }
}
