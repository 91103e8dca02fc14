//! How actors in their start state are set apart: a ring for each queue, and each end with its
//! owner.
ghost use Rattle.std.specs.Prelude.{◌≡◌, ◌<◌, ◌++◌, ◌==◌, ℕ, if◌then◌else◌, IfOk, OnOk, Some, List};
ghost use Rattle.std.specs.Prelude.{[], ◌∷◌, length, map, slice_get};
ghost use Rattle.std.specs.List.{zip, AllZip};
ghost use Rattle.cargo_core.specs.Capacities.{IsCapacity};
ghost use Rattle.wire_core.specs.Ends.{Role};
ghost use Rattle.wire_core.specs.Ends as roles;
ghost use Rattle.wire_core.specs.Sizes.{AreSized};
ghost use Rattle.wire_core.specs.Journal.{owner_of};
ghost use Rattle.wire_core.specs.declared.names.QueueRow.{QueueRow as Row};
ghost use Rattle.actor_set.specs.Actors.{part_of};
ghost use Rattle.actor_set.specs.Laws.Kinds.{hostiles};
ghost use Rattle.order_law.specs.ActorParts.Given.{GivesProducer, GivesConsumer, IsAlone};
ghost use Rattle.order_law.specs.ActorParts.Given.{Kept};
ghost use Rattle.order_law.specs.ActorParts.Opening.{first_half};
ghost use Rattle.order_law.specs.ActorParts.Parting.{IsRingOf};
ghost use Rattle.order_law.specs.ActorParts.Opened.{AreOpened};

use crate::actor_parts::parts::{Part, Parts};
use crate::actor_parts::worker::Worker;
use actor_set::Actor;
use cargo_core::Memory;
use spsc_queue::{Consumer, Producer, Ring, open, open_wild};
use std::alloc::Global;
use wire_core::{ActorId, QueueId, QueueRow};

// Each actor with no end yet. Nobody looked yet, so there is no look to forget.
fn each_alone(alloc: Global, actors: Vec<Actor>) -> Result<Vec<Part>, Memory>
    ensures { IfOk result (λ parts. AllZip IsAlone actors.items parts.items) }
{
    let mut parts = Vec::with_capacity(alloc, actors.len())?;
    for mut actor in actors {
        actor.forget();
        parts.push((Worker::alone(actor), Vec::new(alloc), Vec::new(alloc)))?;
    }
    Ok(parts)
}

// Gives an actor a producing end.
fn give_producer(
    parts: &mut Vec<Part>,
    actor: u16,
    queue: QueueId,
    end: Producer,
) -> Result<(), Memory>
    requires { actor < length parts.old.items }
    ensures { OnOk result (GivesProducer actor (queue, end) parts.old.items parts.new.items) }
{
    let (_, producers, _) = &mut parts[actor as usize];
    producers.push((queue, end))?;
    Ok(())
}

// Gives an actor a consuming end.
fn give_consumer(
    parts: &mut Vec<Part>,
    actor: u16,
    queue: QueueId,
    end: Consumer,
) -> Result<(), Memory>
    requires { actor < length parts.old.items }
    ensures { OnOk result (GivesConsumer actor (queue, end) parts.old.items parts.new.items) }
{
    let (_, _, consumers) = &mut parts[actor as usize];
    consumers.push((queue, end))?;
    Ok(())
}

// Whether the actor of a number is hostile.
fn is_hostile(parts: &[Part], number: ActorId) -> bool
    ensures { result ≡ hostiles (map (λ (p : Kept). part_of p.0.actor) parts.now) number.0 }
{
    match parts.get(number.0 as usize) {
        Some((worker, _, _)) => worker.is_hostile(),
        None => false,
    }
}

// A ring for a row, which is wild where one of these actors is hostile that has an end of the queue.
fn open_for(
    alloc: Global,
    parts: &[Part],
    row: &QueueRow,
) -> Result<(Ring, Producer, Consumer), Memory>
    requires { IsCapacity row.now.capacity }
    ensures ring { IfOk result (λ r. IsRingOf
        (hostiles (map (λ (p : Kept). part_of p.0.actor) parts.now)) row.now r.0) }
    ensures producer { IfOk result (λ r. r.1
        ≡ record { ring = r.0.id; knows = first_half roles.Producer row.now.kind r.0.wild }) }
    ensures consumer { IfOk result (λ r. r.2
        ≡ record { ring = r.0.id; knows = first_half roles.Consumer row.now.kind r.0.wild }) }
{
    if is_hostile(parts, row.producer) || is_hostile(parts, row.consumer) {
        open_wild(alloc, row.kind, row.capacity)
    } else {
        open(alloc, row.kind, row.capacity)
    }
}

/// Opens one ring for each row, in order, and gives each of its ends to the actor that the row
/// names. It is wild where one of the two is hostile.
pub fn open_apart(alloc: Global, rows: &[QueueRow], actors: Vec<Actor>) -> Result<Parts, Memory>
    requires sized { AreSized rows.now }
    requires peers { (n : ℕ) (row : Row) → slice_get rows.now n ≡ Some row → (r : Role)
        → owner_of row r < length actors.items }
    ensures { IfOk result (λ p. AreOpened rows.now actors.items p.rings.items p.actors.items) }
{
    let mut rings = Vec::new(alloc);
    let mut parts = each_alone(alloc, actors)?;
    for row in rows {
        let queue = QueueId(rings.len() as u16);
        let (ring, producer, consumer) = open_for(alloc, &parts, row)?;
        rings.push(ring)?;
        give_producer(&mut parts, row.producer.0, queue, producer)?;
        give_consumer(&mut parts, row.consumer.0, queue, consumer)?;
    }
    Ok(Parts {
        rings,
        actors: parts,
    })
}
