//! What a thread does with its actor, and what is left for the caller.
ghost use Rattle.std.specs.Prelude.{◌≡◌, ◌≤◌, ◌+◌, ◌⊎◌, ℕ, IfOk, true};
ghost use Rattle.actor_set.specs.Actors.{actor_rests};
ghost use Rattle.pd_runner.specs.Running.{IsReady, HasNoWant, Came, CameAtWork};

use crate::floor::Floor;
use crate::gate::Gate;
use crate::part::{Part, Ran};
use actor_set::laws::actor_law;
use actor_set::row_law;
use cargo_core::Memory;
use crossbeam_utils::sync::Parker;
use seat_wires::Seats;
use spsc_queue::Ring;
use std::sync::Wait;
use wire_core::{ActorId, Answer, Event, Op};

// Whether it asked for a notification and there was none.
fn is_calm(event: &Event) -> bool {
    matches!(event.op, Op::Wake(_)) && event.answer == Answer::No
}

// How many of the places have an end.
fn count_ends<T>(places: &[Option<T>]) -> u64 {
    let mut count: u64 = 0;
    for place in places {
        if place.is_some() {
            count = count.wrapping_add(1);
        }
    }
    count
}

/// Steps the actor until the threads end. It waits where the actor is at rest and each of its ends
/// has since then said that no notification is pending. A hostile actor at rest makes no call any
/// more, so its thread ends there and counts as idle. Where a step wants memory it is the last, and
/// the part's worker tells of it.
pub(crate) fn work<R: Wait, G: Gate>(
    rt: &R,
    rings: &[Ring],
    floor: &Floor,
    gate: &G,
    me: u16,
    parker: Parker,
    part: Part,
    limit: u64,
) -> Ran
    requires { IsReady rings.now part }
    ensures came { Came rings.now part result.made result.part }
    ensures within { result.made ≤ limit }
{
    actor_law();
    let ends = count_ends(&part.producers).wrapping_add(count_ends(&part.consumers));
    let Part {
        mut worker,
        producers,
        consumers,
    } = part;
    let mut seats = Seats::of(rings, producers, consumers);
    let mut made: u64 = 0;
    let mut calm: u64 = 0;
    for _ in rt.forever() {
        if floor.is_unmanned(me) || floor.is_over() {
            break;
        }
        if made >= limit {
            floor.end();
            break;
        }
        if worker.is_hostile() && worker.at_rest() {
            floor.leave_unmanned(me);
            break;
        }
        if calm >= ends && worker.at_rest() {
            calm = 0;
            floor.rest(rt, me, &parker);
            continue;
        }
        if calm == 0 {
            floor.begin_round(me);
        }
        gate.pass(ActorId(me), worker.recorded());
        let event = match worker.step(&mut seats) {
            Ok(event) => event,
            Err(_) => {
                floor.end();
                break;
            }
        };
        made += 1;
        calm = if is_calm(&event) {
            calm.wrapping_add(1)
        } else {
            0
        };
        floor.note(&event);
    }
    row_law();
    let (producers, consumers) = seats.into_ends();
    Ran {
        part: Part {
            worker,
            producers,
            consumers,
        },
        made,
    }
}

/// Steps the actor until it is at rest or has made `limit` steps in all, or not at all. It makes no
/// step at rest.
pub(crate) fn settle<G: Gate>(
    rings: &[Ring],
    gate: &G,
    me: u16,
    part: Part,
    before: u64,
    limit: u64,
    stop: bool,
) -> Result<(Part, u64), Memory>
    requires ready { IsReady rings.now part }
    requires within { before ≤ limit }
    ensures came { IfOk result (λ r. (n : ℕ) × (r.1 ≡ before + n)
        × CameAtWork rings.now part n r.0) }
    ensures fine { IfOk result (λ r. HasNoWant r.0) }
    ensures within { IfOk result (λ r. r.1 ≤ limit) }
    ensures rests { IfOk result
        (λ r. (stop ≡ true) ⊎ ((actor_rests r.0.worker.actor ≡ true) ⊎ (r.1 ≡ limit))) }
{
    actor_law();
    let Part {
        mut worker,
        producers,
        consumers,
    } = part;
    let mut seats = Seats::of(rings, producers, consumers);
    let mut made = before;
    while !stop && made < limit && !worker.at_rest() {
        gate.pass(ActorId(me), worker.recorded());
        let _event = match worker.step(&mut seats) {
            Ok(event) => event,
            Err(memory) => {
                drop(worker);
                return Err(memory);
            }
        };
        made += 1;
    }
    row_law();
    let (producers, consumers) = seats.into_ends();
    Ok((
        Part {
            worker,
            producers,
            consumers,
        },
        made,
    ))
}
