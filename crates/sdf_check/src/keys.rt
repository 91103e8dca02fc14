//! The domains and the regions that class elements name, element by element in the order of the
//! table: where each name stands first, and which elements name one again.
ghost use Rattle.std.specs.Prelude.{◌≡◌, ◌↔◌, ◌⊎◌, ◌++◌, ◌∷◌, [], List, ℕ, true, Some, map};
ghost use Rattle.std.specs.Prelude.{slice_get, IsTrue, IfOk, OnOk};
ghost use Rattle.sdf_plan.specs.declared.plan.Plan.{Plan};
ghost use Rattle.sdf_plan.specs.ClassTable.Names.{domains_of, regions_of, queue_region, pool_region};
ghost use Rattle.sdf_plan.specs.ClassTable.Order.{number_of};
ghost use Rattle.sdf_plan.specs.ClassTable.Shown.{AreClasses, element_shown, pool_shown, queue_shown};
ghost use Rattle.sdf_plan.specs.ClassTable.Table.{table_of, Element};
ghost use Rattle.sdf_plan.specs.ClassTable.Rows.{Name};
ghost use Rattle.sdf_check.specs.ClassRules.{RepeatsName, SomeOf};
ghost use Rattle.sdf_check.specs.Keys.{AreKeys, names_of};
ghost use Rattle.sdf_check.specs.Lookups.{FindsPlaces, names_shown};

use crate::class::is_named;
use crate::names::{Places, note};
use cargo_core::{Memory, Series};
use sdf_plan::class_table::{ClassElement, Classes, Ends, PoolUse, QueueUse};
use std::alloc::Global;
use std::collections::BTreeMap;

/// Which names of an element are asked for.
#[derive(Clone, Copy)]
pub enum Named {
    Domains,
    Regions,
}

/// The names that class elements have at their keys, in the order of the table: for each name its
/// first key, counted from 0, and for each element whether a name of it stands before its key.
#[derive(Drop)]
pub struct Keys<'a> {
    pub places: Places<'a>,
    pub again: Series<bool>,
}

fn domains<'a>(alloc: Global, element: &ClassElement<&'a str>) -> Result<Vec<&'a str>, Memory>
    ensures { IfOk result (λ names. names_shown names.items
        ≡ domains_of (element_shown element.now)) }
{
    let mut names = Vec::new(alloc);
    for role in element.roles.as_slice() {
        names.push(role.domain)?;
    }
    Ok(names)
}

// The region of a queue that stands first in one.
fn push_first<'a>(names: &mut Vec<&'a str>, queue: &QueueUse<&'a str>) -> Result<(), Memory>
    ensures { OnOk result (names_shown names.new.items
        ≡ names_shown names.old.items ++ queue_region (queue_shown queue.now)) }
{
    if let Ends::Across(link) = queue.ends {
        if queue.behind.is_none() {
            names.push(link.region)?;
        }
    }
    Ok(())
}

fn push_pools<'a>(names: &mut Vec<&'a str>, pools: &[PoolUse<&'a str>]) -> Result<(), Memory>
    ensures { OnOk result (names_shown names.new.items
        ≡ names_shown names.old.items ++ map pool_region (map pool_shown pools.now)) }
{
    for pool in pools {
        names.push(pool.region)?;
    }
    Ok(())
}

fn regions<'a>(alloc: Global, element: &ClassElement<&'a str>) -> Result<Vec<&'a str>, Memory>
    ensures { IfOk result (λ names. names_shown names.items
        ≡ regions_of (element_shown element.now)) }
{
    let mut names = Vec::new(alloc);
    for queue in element.queues.as_slice() {
        push_first(&mut names, queue)?;
    }
    push_pools(&mut names, element.pools.as_slice())?;
    Ok(names)
}

fn names_of<'a>(
    alloc: Global,
    element: &ClassElement<&'a str>,
    named: Named,
) -> Result<Vec<&'a str>, Memory>
    ensures { IfOk result (λ names. names_shown names.items
        ≡ names_of named (element_shown element.now)) }
{
    match named {
        Named::Domains => domains(alloc, element),
        Named::Regions => regions(alloc, element),
    }
}

// Notes the next of all names, and answers whether it was there before.
fn note_next<'a>(
    places: &mut Places<'a>,
    all: &mut Vec<&'a str>,
    name: &'a str,
) -> Result<bool, Memory>
    ensures { IfOk result (λ again. FindsPlaces places.old (names_shown all.old.items)
        → FindsPlaces places.new (names_shown all.new.items)
        × (names_shown all.new.items ≡ names_shown all.old.items ++ name.now ∷ [])
        × (IsTrue again ↔ SomeOf (λ other. other ≡ name.now) (names_shown all.old.items))) }
{
    let again = is_named(places, name);
    note(places, name, all.len())?;
    all.push(name)?;
    Ok(again)
}

fn either(first: bool, second: bool) -> bool
    ensures { IsTrue result ↔ (IsTrue first ⊎ IsTrue second) }
{
    first || second
}

// Notes the names of an element, and answers whether one was there before its key.
fn note_names<'a>(
    places: &mut Places<'a>,
    all: &mut Vec<&'a str>,
    names: &[&'a str],
) -> Result<bool, Memory>
    ensures { IfOk result (λ again. FindsPlaces places.old (names_shown all.old.items)
        → FindsPlaces places.new (names_shown all.new.items)
        × (names_shown all.new.items ≡ names_shown all.old.items ++ names_shown names.now)
        × (IsTrue again ↔ RepeatsName (names_shown all.old.items) (names_shown names.now))) }
{
    let mut again = false;
    for name in names {
        again = either(again, note_next(places, all, *name)?);
    }
    Ok(again)
}

/// The names that are asked for, of all elements.
pub fn keys_of<'a>(alloc: Global, classes: &Classes<'a>, named: Named) -> Result<Keys<'a>, Memory>
    ensures { IfOk result (λ keys. (plan : Plan) → AreClasses classes.now plan
        → AreKeys keys (names_of named) plan) }
{
    let elements = classes.in_order(alloc)?;
    let mut places = BTreeMap::new(alloc);
    let mut all = Vec::new(alloc);
    let mut again = Vec::new(alloc);
    for at in 0..elements.len() {
        let names = names_of(alloc, elements[at], named)?;
        again.push(note_names(&mut places, &mut all, &names)?)?;
    }
    let again = Series::from_vec(again);
    Ok(Keys { places, again })
}

// Whether a flag is set.
fn is_set(flags: &[bool], number: u128) -> bool
    ensures { IsTrue result ↔ (slice_get flags.now number ≡ Some true) }
{
    number < flags.len() as u128 && flags[number as usize]
}

/// Whether an element names again what an element before it, or an earlier key of its own, names.
pub fn names_again(keys: &Keys<'_>, classes: &Classes<'_>, element: &ClassElement<&str>) -> bool
    ensures { (plan : Plan) → AreClasses classes.now plan
        → IsTrue result ↔ (slice_get keys.now.again (number_of plan element.now.place)
        ≡ Some true) }
{
    is_set(keys.again.as_slice(), classes.number(element.place))
}
