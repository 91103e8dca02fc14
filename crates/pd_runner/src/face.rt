//! Actors apart are given a thread each.
ghost use Rattle.std.specs.Prelude.{◌≡◌, ◌≤◌, ◌⊎◌, ℕ, IfOk, Some, None, Ok, true, length, map};
ghost use Rattle.std.specs.Prelude.{slice_get};
ghost use Rattle.order_law.specs.ActorParts.Given.{apart_of};
ghost use Rattle.order_law.specs.ActorParts.Numbered.{numbered};
ghost use Rattle.order_law.specs.ActorParts.Parting.{Apart, AreApart};
ghost use Rattle.order_law.specs.ActorParts.Placing.{AreWithin};
ghost use Rattle.pd_runner.specs.Each.{Each, Every};
ghost use Rattle.pd_runner.specs.Facing.{CameWithin, HasSpent, IsResting, AreResting};
ghost use Rattle.pd_runner.specs.Seated.{ArePlaced, IsApart, IsSeated, HasNumbers, IsNumbered};

use crate::gate::Gate;
use crate::part::Part;
use crate::run::run_seated;
use actor_set::laws::actor_law;
use cargo_core::Memory;
use order_law::actor_parts::{Parts, by_number, by_place};
use region_layout::Layout;
use spsc_queue::{Consumer, Producer, Ring};
use std::alloc::Global;
use std::sync::Wait;
use std::thread::Threads;
use wire_core::QueueId;

// Both kinds of ends, each at its queue's place.
fn ends_by_place(
    alloc: Global,
    many: usize,
    producers: Vec<(QueueId, Producer)>,
    consumers: Vec<(QueueId, Consumer)>,
) -> Result<(Vec<Option<Producer>>, Vec<Option<Consumer>>), Memory>
    requires producers { AreWithin many producers.items }
    requires consumers { AreWithin many consumers.items }
    ensures producers { IfOk result (λ r. ArePlaced many producers.items r.0.items) }
    ensures consumers { IfOk result (λ r. ArePlaced many consumers.items r.1.items) }
{
    let producers = by_place(alloc, producers, many)?;
    let consumers = by_place(alloc, consumers, many)?;
    Ok((producers, consumers))
}

// Both kinds of ends, each with its queue's number.
fn ends_by_number(
    alloc: Global,
    producers: Vec<Option<Producer>>,
    consumers: Vec<Option<Consumer>>,
) -> Result<(Vec<(QueueId, Producer)>, Vec<(QueueId, Consumer)>), Memory>
    requires producers { length producers.items ≤ 65536 }
    requires consumers { length consumers.items ≤ 65536 }
    ensures producers { IfOk result (λ r. r.0.items ≡ numbered 0 producers.items) }
    ensures consumers { IfOk result (λ r. r.1.items ≡ numbered 0 consumers.items) }
{
    let producers = by_number(alloc, producers)?;
    let consumers = by_number(alloc, consumers)?;
    Ok((producers, consumers))
}

// Seats an actor at its ends. Here, in `number`, in `begin_all` and in `settle` a call of `drop`
// lets an actor go: where a block ends, the proof would go through all kinds of actors in place.
fn seat(alloc: Global, rings: &[Ring], part: order_law::actor_parts::Part) -> Result<Part, Memory>
    requires apart { IsApart rings.now part }
    requires few { length rings.now ≤ 65536 }
    ensures { IfOk result (IsSeated rings.now part) }
{
    let (worker, producers, consumers) = part;
    match ends_by_place(alloc, rings.len(), producers, consumers) {
        Ok((producers, consumers)) => Ok(Part {
            worker,
            producers,
            consumers,
        }),
        Err(memory) => {
            drop(worker);
            Err(memory)
        }
    }
}

// The same for all of them.
fn seat_all(
    alloc: Global,
    rings: &[Ring],
    parts: Vec<order_law::actor_parts::Part>,
) -> Result<Vec<Part>, Memory>
    requires apart { Every (IsApart rings.now) parts.items }
    requires few { length rings.now ≤ 65536 }
    ensures { IfOk result (λ v. Each (IsSeated rings.now) parts.items v.items) }
{
    let mut all = Vec::with_capacity(alloc, parts.len())?;
    for part in parts {
        all.push(seat(alloc, rings, part)?)?;
    }
    Ok(all)
}

// The actor with the numbers of its ends.
fn number(alloc: Global, part: Part) -> Result<order_law::actor_parts::Part, Memory>
    requires { HasNumbers part }
    ensures { IfOk result (IsNumbered part) }
{
    let Part {
        worker,
        producers,
        consumers,
    } = part;
    match ends_by_number(alloc, producers, consumers) {
        Ok((producers, consumers)) => Ok((worker, producers, consumers)),
        Err(memory) => {
            drop(worker);
            Err(memory)
        }
    }
}

// The same for all of them.
fn number_all(alloc: Global, parts: Vec<Part>) -> Result<Vec<order_law::actor_parts::Part>, Memory>
    requires { Every HasNumbers parts.items }
    ensures { IfOk result (λ v. Each IsNumbered parts.items v.items) }
{
    let mut all = Vec::with_capacity(alloc, parts.len())?;
    for part in parts {
        all.push(number(alloc, part)?)?;
    }
    Ok(all)
}

// Whether all of them are at rest.
fn all_rest(parts: &[order_law::actor_parts::Part]) -> bool
    ensures yes { result ≡ true → AreResting (map apart_of parts.now) }
    ensures no { AreResting (map apart_of parts.now) → result ≡ true }
{
    for part in parts {
        if !part.0.at_rest() {
            return false;
        }
    }
    true
}

// The same as `run_threads`, whether or not all rest at the start.
fn run_apart<R: Threads + Wait + Sync, G: Gate + Sync>(
    rt: &R,
    alloc: Global,
    layout: &Layout,
    parts: Parts,
    limit: u64,
    gate: &G,
) -> Result<Parts, Memory>
    requires apart { AreApart layout.now.queues parts.rings.items
        (map apart_of parts.actors.items) }
    requires few { length layout.now.queues ≤ 65536 }
    ensures rings { IfOk result (λ p. p.rings.items ≡ parts.rings.items) }
    ensures many { IfOk result (λ p. length p.actors.items ≡ length parts.actors.items) }
    ensures apart { IfOk result (λ p. AreApart layout.now.queues p.rings.items
        (map apart_of p.actors.items)) }
    ensures memory { IfOk result (λ p. (k : ℕ) (new : Apart)
        → slice_get (map apart_of p.actors.items) k ≡ Some new → new.wanted ≡ None) }
    ensures came { IfOk result (λ p. (k : ℕ) (old new : Apart)
        → slice_get (map apart_of parts.actors.items) k ≡ Some old
        → slice_get (map apart_of p.actors.items) k ≡ Some new
        → CameWithin parts.rings.items limit old new) }
    ensures ends { IfOk result (λ p. AreResting (map apart_of p.actors.items)
        ⊎ ((k : ℕ) × (old : Apart) × (new : Apart)
        × (slice_get (map apart_of parts.actors.items) k ≡ Some old)
        × (slice_get (map apart_of p.actors.items) k ≡ Some new)
        × HasSpent parts.rings.items limit old new)) }
{
    let Parts { rings, actors } = parts;
    let shared = rings.as_slice();
    let seated = seat_all(alloc, shared, actors)?;
    let seated = run_seated(rt, alloc, layout.queues(), shared, seated, limit, gate)?;
    let actors = number_all(alloc, seated)?;
    Ok(Parts { rings, actors })
}

/// Steps each actor in a thread of its own, until all are idle, one has made `limit` steps, or a
/// step wants memory. A thread waits where its actor is at rest and no notification is pending at
/// its ends, and a ring wakes it; the layout tells whom. After the threads have ended, the caller
/// steps each actor that isn't at rest until it is or has made `limit` steps, unless one made as
/// many in its thread. An actor for which no thread could be started is stepped there alone. Each
/// step passes the gate first.
///
/// What it answers can be adopted: the rings, and the actors that were handed in, in their order
/// and at the same queues. What each of them took and sent begins with what it had taken and sent.
/// At rest an actor only looked for a notification, or waived one. Every actor is at rest, or the
/// ends of one made at least `limit` word steps in this call. Where all rest at the start, no step
/// is made, and the parts come back as they are. It may wait, so that it returns isn't promised.
/// Err is the answer where a step of any actor wanted memory, or the run itself did.
pub fn run_threads<R: Threads + Wait + Sync, G: Gate + Sync>(
    rt: &R,
    alloc: Global,
    layout: &Layout,
    parts: Parts,
    limit: u64,
    gate: &G,
) -> Result<Parts, Memory>
    requires apart { AreApart layout.now.queues parts.rings.items
        (map apart_of parts.actors.items) }
    requires few { length layout.now.queues ≤ 65536 }
    ensures rested { AreResting (map apart_of parts.actors.items) → result ≡ Ok parts }
    ensures rings { IfOk result (λ p. p.rings.items ≡ parts.rings.items) }
    ensures many { IfOk result (λ p. length p.actors.items ≡ length parts.actors.items) }
    ensures apart { IfOk result (λ p. AreApart layout.now.queues p.rings.items
        (map apart_of p.actors.items)) }
    ensures memory { IfOk result (λ p. (k : ℕ) (new : Apart)
        → slice_get (map apart_of p.actors.items) k ≡ Some new → new.wanted ≡ None) }
    ensures came { IfOk result (λ p. (k : ℕ) (old new : Apart)
        → slice_get (map apart_of parts.actors.items) k ≡ Some old
        → slice_get (map apart_of p.actors.items) k ≡ Some new
        → CameWithin parts.rings.items limit old new) }
    ensures ends { IfOk result (λ p. AreResting (map apart_of p.actors.items)
        ⊎ ((k : ℕ) × (old : Apart) × (new : Apart)
        × (slice_get (map apart_of parts.actors.items) k ≡ Some old)
        × (slice_get (map apart_of p.actors.items) k ≡ Some new)
        × HasSpent parts.rings.items limit old new)) }
{
    actor_law();
    if all_rest(&parts.actors) {
        Ok(parts)
    } else {
        run_apart(rt, alloc, layout, parts, limit, gate)
    }
}
