//! The rules that are told of the rows of an element of a class: for each of them the question on
//! one row, and a loop over the queues, the pools or the roles.
ghost use Rattle.std.specs.Prelude.{◌≡◌, ◌↔◌, ◌<◌, IsTrue, IsSomeAnd};
ghost use Rattle.sdf_plan.specs.ClassTable.Shown.{element_shown, pool_shown, queue_shown, role_shown};
ghost use Rattle.cargo_core.specs.Capacities.{IsCapacity};
ghost use Rattle.sdf_check.specs.ClassRules.{SomeOf, IsGranted, HasInterrupt, QueueHasNoRegion};
ghost use Rattle.sdf_check.specs.ClassRules.{PoolHasNoRegion, UsesNoRegion, RoleHasNoDomain};
ghost use Rattle.sdf_check.specs.ClassRules.{UsesNoDomain, Plays, GivesWrongRole};
ghost use Rattle.sdf_check.specs.ClassRules.{QueueHasNoChannel, LacksChannel, QueueLacksRight};
ghost use Rattle.sdf_check.specs.ClassRules.{PoolLacksRight, LacksRight, IsStranger, allowed};
ghost use Rattle.sdf_check.specs.ClassRules.{QueueHasStranger, PoolHasStranger};
ghost use Rattle.sdf_check.specs.ClassRules.{IsSharedWithStranger, HasBadCapacity, HasLowCapacity};
ghost use Rattle.sdf_check.specs.ClassRules.{QueueLacksRoom, PoolLacksRoom, LacksRoom};

use crate::class::{
    are_joined, has_interrupt, has_stranger, is_among, is_granted, is_smaller, maps_region, plays,
};
use crate::judge::{Judge, is_same};
use crate::sizes::is_capacity;
use sdf_plan::Domain;
use sdf_plan::class_table::{
    ClassElement, Ends, Grant, PoolUse, QueueUse, RoleUse, pool_bytes, queue_end,
};

fn queue_has_no_region(judge: &Judge<'_>, queue: &QueueUse<&str>) -> bool
    ensures { IsTrue result ↔ QueueHasNoRegion judge.now.plan.now (queue_shown queue.now) }
{
    match queue.ends {
        Ends::Across(link) => judge.lacks_region(link.region),
        _ => false,
    }
}

fn queues_have_no_region(judge: &Judge<'_>, queues: &[QueueUse<&str>]) -> bool
    ensures { IsTrue result ↔ SomeOf (λ q.
        QueueHasNoRegion judge.now.plan.now (queue_shown q)) queues.now }
{
    queues.iter().any(|queue| queue_has_no_region(judge, queue))
}

fn pool_has_no_region(judge: &Judge<'_>, pool: &PoolUse<&str>) -> bool
    ensures { IsTrue result ↔ PoolHasNoRegion judge.now.plan.now (pool_shown pool.now) }
{
    judge.lacks_region(pool.region)
}

fn pools_have_no_region(judge: &Judge<'_>, pools: &[PoolUse<&str>]) -> bool
    ensures { IsTrue result ↔ SomeOf (λ p.
        PoolHasNoRegion judge.now.plan.now (pool_shown p)) pools.now }
{
    pools.iter().any(|pool| pool_has_no_region(judge, pool))
}

/// Whether the region of a queue or of a pool isn't there.
pub fn uses_no_region(judge: &Judge<'_>, element: &ClassElement<&str>) -> bool
    ensures { IsTrue result ↔ UsesNoRegion judge.now.plan.now (element_shown element.now) }
{
    queues_have_no_region(judge, element.queues.as_slice())
        || pools_have_no_region(judge, element.pools.as_slice())
}

fn role_has_no_domain(judge: &Judge<'_>, role: &RoleUse<&str>) -> bool
    ensures { IsTrue result ↔ RoleHasNoDomain judge.now.plan.now (role_shown role.now) }
{
    judge.lacks_domain(role.domain)
}

fn roles_have_no_domain(judge: &Judge<'_>, roles: &[RoleUse<&str>]) -> bool
    ensures { IsTrue result ↔ SomeOf (λ r.
        RoleHasNoDomain judge.now.plan.now (role_shown r)) roles.now }
{
    roles.iter().any(|role| role_has_no_domain(judge, role))
}

/// Whether a domain that has a role isn't there.
pub fn uses_no_domain(judge: &Judge<'_>, element: &ClassElement<&str>) -> bool
    ensures { IsTrue result ↔ UsesNoDomain judge.now.plan.now (element_shown element.now) }
{
    roles_have_no_domain(judge, element.roles.as_slice())
}

fn role_is_wrong(judge: &Judge<'_>, role: &RoleUse<&str>) -> bool
    ensures { IsTrue result ↔ ¬ Plays judge.now.plan.now (role_shown role.now) }
{
    !plays(judge, role.domain, role.role)
}

fn one_role_is_wrong(judge: &Judge<'_>, roles: &[RoleUse<&str>]) -> bool
    ensures { IsTrue result ↔ SomeOf (λ r. ¬ Plays judge.now.plan.now (role_shown r)) roles.now }
{
    for role in roles {
        if role_is_wrong(judge, role) {
            return true;
        }
    }
    false
}

/// Whether an element gives a role to a domain that runs another program.
pub fn gives_wrong_role(judge: &Judge<'_>, element: &ClassElement<&str>) -> bool
    ensures { IsTrue result ↔ GivesWrongRole judge.now.plan.now (element_shown element.now) }
{
    one_role_is_wrong(judge, element.roles.as_slice())
}

fn queue_has_no_channel(judge: &Judge<'_>, queue: &QueueUse<&str>) -> bool
    ensures { IsTrue result ↔ QueueHasNoChannel judge.now.plan.now (queue_shown queue.now) }
{
    match queue.ends {
        Ends::Across(link) => !are_joined(judge, link.from, link.to),
        _ => false,
    }
}

fn queues_have_no_channel(judge: &Judge<'_>, queues: &[QueueUse<&str>]) -> bool
    ensures { IsTrue result ↔ SomeOf (λ q.
        QueueHasNoChannel judge.now.plan.now (queue_shown q)) queues.now }
{
    queues
        .iter()
        .any(|queue| queue_has_no_channel(judge, queue))
}

fn driver_lacks_interrupt(judge: &Judge<'_>, driver: Option<&str>) -> bool
    ensures { IsTrue result ↔ IsSomeAnd driver.entry
        (λ name. ¬ HasInterrupt judge.now.plan.now name.now) }
{
    match driver {
        Some(name) => !has_interrupt(judge, name),
        None => false,
    }
}

/// Whether two domains of a queue have no channel, or a driver no interrupt.
pub fn lacks_channel(judge: &Judge<'_>, element: &ClassElement<&str>) -> bool
    ensures { IsTrue result ↔ LacksChannel judge.now.plan.now (element_shown element.now) }
{
    queues_have_no_channel(judge, element.queues.as_slice())
        || driver_lacks_interrupt(judge, element.driver)
}

fn queue_lacks_right(judge: &Judge<'_>, queue: &QueueUse<&str>) -> bool
    ensures { IsTrue result ↔ QueueLacksRight judge.now.plan.now (queue_shown queue.now) }
{
    match queue.ends {
        Ends::Across(link) => {
            !is_granted(judge, link.from, link.region, true)
                || !is_granted(judge, link.to, link.region, true)
        }
        _ => false,
    }
}

fn queues_lack_right(judge: &Judge<'_>, queues: &[QueueUse<&str>]) -> bool
    ensures { IsTrue result ↔ SomeOf (λ q.
        QueueLacksRight judge.now.plan.now (queue_shown q)) queues.now }
{
    queues.iter().any(|queue| queue_lacks_right(judge, queue))
}

fn one_lacks_right(judge: &Judge<'_>, region: &str, must: &[Grant<&str>]) -> bool
    ensures { IsTrue result
        ↔ SomeOf (λ g. ¬ IsGranted judge.now.plan.now
        (g.domain.now, region.now, g.writes)) must.now }
{
    for grant in must {
        if !is_granted(judge, grant.domain, region, grant.writes) {
            return true;
        }
    }
    false
}

fn pool_lacks_right(judge: &Judge<'_>, pool: &PoolUse<&str>) -> bool
    ensures { IsTrue result ↔ PoolLacksRight judge.now.plan.now (pool_shown pool.now) }
{
    one_lacks_right(judge, pool.region, pool.must.as_slice())
}

fn pools_lack_right(judge: &Judge<'_>, pools: &[PoolUse<&str>]) -> bool
    ensures { IsTrue result ↔ SomeOf (λ p.
        PoolLacksRight judge.now.plan.now (pool_shown p)) pools.now }
{
    pools.iter().any(|pool| pool_lacks_right(judge, pool))
}

/// Whether a domain lacks a map that a queue or a pool asks of it.
pub fn lacks_right(judge: &Judge<'_>, element: &ClassElement<&str>) -> bool
    ensures { IsTrue result ↔ LacksRight judge.now.plan.now (element_shown element.now) }
{
    queues_lack_right(judge, element.queues.as_slice())
        || pools_lack_right(judge, element.pools.as_slice())
}

fn queue_has_stranger(judge: &Judge<'_>, queue: &QueueUse<&str>) -> bool
    ensures { IsTrue result ↔ QueueHasStranger judge.now.plan.now (queue_shown queue.now) }
{
    match queue.ends {
        Ends::Across(link) => has_stranger(judge, link.region, &[link.from, link.to]),
        _ => false,
    }
}

fn queues_have_stranger(judge: &Judge<'_>, queues: &[QueueUse<&str>]) -> bool
    ensures { IsTrue result ↔ SomeOf (λ q.
        QueueHasStranger judge.now.plan.now (queue_shown q)) queues.now }
{
    queues.iter().any(|queue| queue_has_stranger(judge, queue))
}

fn must_map(must: &[Grant<&str>], name: &str) -> bool
    ensures { IsTrue result ↔ SomeOf (λ g. g.domain.now ≡ name.now) must.now }
{
    must.iter().any(|grant| is_same(grant.domain, name))
}

fn allows(pool: &PoolUse<&str>, name: &str) -> bool
    ensures { IsTrue result ↔ SomeOf (λ other. other ≡ name.now) (allowed (pool_shown pool.now)) }
{
    must_map(pool.must.as_slice(), name) || is_among(name, pool.may.as_slice())
}

fn is_stranger(domain: &Domain, pool: &PoolUse<&str>) -> bool
    ensures { IsTrue result ↔ IsStranger pool.now.region.now
        (allowed (pool_shown pool.now)) domain.now }
{
    !allows(pool, domain.name.as_str()) && maps_region(domain.map.as_slice(), pool.region)
}

fn pool_has_stranger(judge: &Judge<'_>, pool: &PoolUse<&str>) -> bool
    ensures { IsTrue result ↔ PoolHasStranger judge.now.plan.now (pool_shown pool.now) }
{
    judge
        .plan
        .protection_domain
        .as_slice()
        .iter()
        .any(|domain| is_stranger(domain, pool))
}

fn pools_have_stranger(judge: &Judge<'_>, pools: &[PoolUse<&str>]) -> bool
    ensures { IsTrue result ↔ SomeOf (λ p.
        PoolHasStranger judge.now.plan.now (pool_shown p)) pools.now }
{
    for pool in pools {
        if pool_has_stranger(judge, pool) {
            return true;
        }
    }
    false
}

/// Whether a region of a queue or of a pool is mapped by a domain that isn't to map it.
pub fn is_shared_with_stranger(judge: &Judge<'_>, element: &ClassElement<&str>) -> bool
    ensures { IsTrue result ↔ IsSharedWithStranger judge.now.plan.now (element_shown element.now) }
{
    queues_have_stranger(judge, element.queues.as_slice())
        || pools_have_stranger(judge, element.pools.as_slice())
}

fn queues_have_bad_capacity(queues: &[QueueUse<&str>]) -> bool
    ensures { IsTrue result ↔ SomeOf (λ q. ¬ IsCapacity q.capacity) queues.now }
{
    queues.iter().any(|queue| !is_capacity(queue.capacity))
}

/// Whether the capacity of a queue is no power of two from 1 to 32,768.
pub fn has_bad_capacity(element: &ClassElement<&str>) -> bool
    ensures { IsTrue result ↔ HasBadCapacity (element_shown element.now) }
{
    queues_have_bad_capacity(element.queues.as_slice())
}

fn queues_have_low_capacity(queues: &[QueueUse<&str>]) -> bool
    ensures { IsTrue result ↔ SomeOf (λ q. q.capacity < q.holds) queues.now }
{
    queues
        .iter()
        .any(|queue| (queue.capacity as u128) < queue.holds)
}

/// Whether a queue has fewer entries than buffers or requests may come to stand there.
pub fn has_low_capacity(element: &ClassElement<&str>) -> bool
    ensures { IsTrue result ↔ HasLowCapacity (element_shown element.now) }
{
    queues_have_low_capacity(element.queues.as_slice())
}

fn queue_lacks_room(judge: &Judge<'_>, queue: &QueueUse<&str>) -> bool
    ensures { IsTrue result ↔ QueueLacksRoom judge.now.plan.now (queue_shown queue.now) }
{
    match queue.ends {
        Ends::Across(link) => is_smaller(judge, link.region, queue_end(queue)),
        _ => false,
    }
}

fn queues_lack_room(judge: &Judge<'_>, queues: &[QueueUse<&str>]) -> bool
    ensures { IsTrue result ↔ SomeOf (λ q.
        QueueLacksRoom judge.now.plan.now (queue_shown q)) queues.now }
{
    queues.iter().any(|queue| queue_lacks_room(judge, queue))
}

fn pool_lacks_room(judge: &Judge<'_>, pool: &PoolUse<&str>) -> bool
    ensures { IsTrue result ↔ PoolLacksRoom judge.now.plan.now (pool_shown pool.now) }
{
    is_smaller(judge, pool.region, pool_bytes(pool))
}

fn pools_lack_room(judge: &Judge<'_>, pools: &[PoolUse<&str>]) -> bool
    ensures { IsTrue result ↔ SomeOf (λ p.
        PoolLacksRoom judge.now.plan.now (pool_shown p)) pools.now }
{
    pools.iter().any(|pool| pool_lacks_room(judge, pool))
}

/// Whether a region ends before the queue or the pool that stands there.
pub fn lacks_room(judge: &Judge<'_>, element: &ClassElement<&str>) -> bool
    ensures { IsTrue result ↔ LacksRoom judge.now.plan.now (element_shown element.now) }
{
    queues_lack_room(judge, element.queues.as_slice())
        || pools_lack_room(judge, element.pools.as_slice())
}
