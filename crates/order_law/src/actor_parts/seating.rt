//! Ends by the places of their queues, and with their numbers again.
ghost use Rattle.std.specs.Prelude.{◌≡◌, ◌≤◌, ℕ, IfOk, None, List, Option, length};
ghost use Rattle.seat_wires.specs.Places.{stands_at};
ghost use Rattle.order_law.specs.ActorParts.Placing.{placed, AreWithin};
ghost use Rattle.order_law.specs.ActorParts.Numbered.{numbered};

use crate::actor_parts::finishing::{empty_places, place_ends};
use cargo_core::Memory;
use std::alloc::Global;
use wire_core::QueueId;

/// Each end at its queue's place, of so many places.
pub fn by_place<T: Drop>(
    alloc: Global,
    ends: Vec<(QueueId, T)>,
    many: usize,
) -> Result<Vec<Option<T>>, Memory>
    requires { AreWithin many ends.items }
    ensures { IfOk result (λ v. (start : List (Option T)) × ((n : ℕ) → stands_at start n ≡ None)
        × (length start ≡ many) × (v.items ≡ placed ends.items start)) }
{
    let mut places = empty_places(alloc, many)?;
    place_ends(&mut places, ends);
    Ok(places)
}

/// The ends that stand at places, each with the number of its place, ascending.
pub fn by_number<T: Drop>(
    alloc: Global,
    places: Vec<Option<T>>,
) -> Result<Vec<(QueueId, T)>, Memory>
    requires { length places.items ≤ 65536 }
    ensures { IfOk result (λ v. v.items ≡ numbered 0 places.items) }
{
    let mut ends = Vec::with_capacity(alloc, places.len())?;
    let mut number: usize = 0;
    for place in places {
        match place {
            Some(end) => ends.push((QueueId(number as u16), end))?,
            None => {}
        }
        number += 1;
    }
    Ok(ends)
}
