//! How actors that were at work apart are brought together again: each ring comes to its end.
ghost use Rattle.std.specs.Prelude.{◌≡◌, ◌<◌, ℕ, IfOk, Some, None, List, length, map, slice_get};
ghost use Rattle.std.specs.Prelude.{slice_set};
ghost use Rattle.wire_core.specs.Ends.{Role};
ghost use Rattle.wire_core.specs.Journal.{owner_of};
ghost use Rattle.wire_core.specs.declared.names.QueueRow.{QueueRow as Row};
ghost use Rattle.spsc_queue.specs.Known.Ends.{EndIs, RingIs, EndedIs};
ghost use Rattle.seat_wires.specs.Places.{stands_at};
ghost use Rattle.order_law.specs.ActorParts.Placing.{placed, AreWithin, all_placed};
ghost use Rattle.order_law.specs.ActorParts.Parting.{AreApart};
ghost use Rattle.order_law.specs.ActorParts.Given.{apart_of, Kept};
ghost use Rattle.order_law.specs.ActorParts.Finished.{AreFinished, HasEnded};

use crate::actor_parts::parts::Parts;
use actor_set::Actor;
use cargo_core::Memory;
use spsc_queue::{Consumer, Ended, Producer, Ring, finish};
use std::alloc::Global;
use wire_core::{QueueId, QueueRow};

// As many places as asked, with nothing there.
pub(crate) fn empty_places<T: Drop>(alloc: Global, count: usize) -> Result<Vec<Option<T>>, Memory>
    ensures many { IfOk result (λ v. length v.items ≡ count) }
    ensures none { IfOk result (λ v. (n : ℕ) → stands_at v.items n ≡ None) }
{
    let mut places = Vec::with_capacity(alloc, count)?;
    for _ in 0..count {
        places.push(None)?;
    }
    Ok(places)
}

// Puts each end at its queue's place.
pub(crate) fn place_ends<T: Drop>(places: &mut Vec<Option<T>>, ends: Vec<(QueueId, T)>)
    requires { AreWithin (length places.old.items) ends.items }
    ensures { places.new.items ≡ placed ends.items places.old.items }
{
    for (queue, end) in ends {
        places[queue.0 as usize] = Some(end);
    }
}

// Takes the end that stands at a place.
fn take_end<T>(places: &mut Vec<Option<T>>, place: usize) -> T
    requires { (x : T) × (slice_get places.old.items place ≡ Some (Some x)) }
    ensures end { slice_get places.old.items place ≡ Some (Some result) }
    ensures left { places.new.items ≡ slice_set places.old.items place None }
{
    let Some(end) = places[place].take() else {
        unreachable!()
    };
    end
}

// Ends each ring, with its two ends at its place.
fn finish_all(
    alloc: Global,
    rings: Vec<Ring>,
    mut producers: Vec<Option<Producer>>,
    mut consumers: Vec<Option<Consumer>>,
) -> Result<Vec<Ended>, Memory>
    requires producers { (n : ℕ) (ring : RingIs) → slice_get rings.items n ≡ Some ring
        → (p : EndIs) × (slice_get producers.items n ≡ Some (Some p)) × (p.ring ≡ ring.id) }
    requires consumers { (n : ℕ) (ring : RingIs) → slice_get rings.items n ≡ Some ring
        → (c : EndIs) × (slice_get consumers.items n ≡ Some (Some c)) × (c.ring ≡ ring.id) }
    ensures many { IfOk result (λ v. length v.items ≡ length rings.items) }
    ensures each { IfOk result (λ v. (n : ℕ) (ring : RingIs) (p c : EndIs) (e : EndedIs)
        → slice_get rings.items n ≡ Some ring → slice_get producers.items n ≡ Some (Some p)
        → slice_get consumers.items n ≡ Some (Some c) → slice_get v.items n ≡ Some e
        → HasEnded ring p c e) }
{
    let mut all = Vec::with_capacity(alloc, rings.len())?;
    for ring in rings {
        let place = all.len();
        let producer = take_end(&mut producers, place);
        let consumer = take_end(&mut consumers, place);
        all.push(finish(ring, producer, consumer)?)?;
    }
    Ok(all)
}

/// Brings actors together again: each ring comes to its end, and what is kept of it tells what both
/// its owners knew, what was put there and not taken, in order, and both bells, those of a wild ring
/// as they were stored. After Memory, the answer for want of memory alone, all is gone.
pub fn finish_apart(
    alloc: Global,
    rows: &[QueueRow],
    parts: Parts,
) -> Result<(Vec<Actor>, Vec<Ended>), Memory>
    requires apart { AreApart rows.now parts.rings.items (map apart_of parts.actors.items) }
    requires peers { (n : ℕ) (row : Row) → slice_get rows.now n ≡ Some row → (r : Role)
        → owner_of row r < length parts.actors.items }
    ensures { IfOk result (λ r. AreFinished rows.now parts.rings.items
        (map apart_of parts.actors.items) r.0.items r.1.items) }
{
    let _ = rows;
    let Parts {
        rings,
        actors: parts,
    } = parts;
    let mut producers = empty_places(alloc, rings.len())?;
    let mut consumers = empty_places(alloc, rings.len())?;
    let mut actors = Vec::with_capacity(alloc, parts.len())?;
    for (worker, sending, taking) in parts {
        actors.push(worker.into_actor())?;
        place_ends(&mut producers, sending);
        place_ends(&mut consumers, taking);
    }
    let ended = finish_all(alloc, rings, producers, consumers)?;
    Ok((actors, ended))
}
