//! What the two ends of a ring share, and how a ring begins.
ghost use Rattle.std.specs.Prelude.{◌≡◌, ◌≤◌, ◌+◌, true, false, [], IfOk};
ghost use Rattle.cargo_core.specs.Capacities.{IsCapacity};
ghost use Rattle.spsc_queue.specs.Rule.{first_producer, first_consumer, first_view};
ghost use Rattle.spsc_queue.specs.Rule.{wild_producer, wild_consumer};

use crate::consumer::Consumer;
use crate::plays::TwoEnds;
use crate::producer::Producer;
use crate::rule::{Board, FLAG_BACK, GUARDS, Place, START, Terms};
use cargo_core::{Memory, QueueKind};
use std::alloc::Global;
use std::marker::Model;
use wire_core::{Ringer, Waiter};

/// The words and the slots of a queue, which its two ends share by reference. It takes its room
/// when it is opened.
#[derive(Drop)]
pub struct Ring {
    pub(crate) table: Board,
    pub(crate) capacity: u16,
    pub(crate) alloc: Global,
}

impl Model for Ring {
    ghost use Rattle.spsc_queue.specs.Known.Ends.{RingIs};

    ghost Value = { RingIs };

    ghost use Rattle.spsc_queue.specs.Known.{ring_is, IsRing};

    ghost view = { ring_is };

    ghost invariant = { IsRing };
}

// A ring and its two ends, of a table and its first seat.
fn two_ends(
    alloc: Global,
    table: Board,
    mut seat: Place,
    capacity: u32,
    wild: bool,
) -> (Ring, Producer, Consumer)
    requires capacity { IsCapacity capacity }
    requires table { (36 ≤ table.shared.table_id.words)
        × (table.shared.table_id.slots ≡ capacity) }
    requires guards { wild ≡ true → table.shared.table_id.words ≡ 36 + capacity }
    requires seat { (seat.table_id ≡ table.shared.table_id)
        × (seat.me ≡ (first_view table.shared.key, [])) }
    requires sort { table.shared.key.wild ≡ wild }
    ensures ring { (result.0.id ≡ table.shared.table_id)
        × (result.0.kind ≡ table.shared.key.kind) × (result.0.wild ≡ wild) }
    ensures producer { result.1 ≡ record {
      ring = table.shared.table_id;
      knows = record (first_producer table.shared.key.kind) { wild = wild };
    } }
    ensures consumer { result.2 ≡ record {
      ring = table.shared.table_id;
      knows = record (first_consumer table.shared.key.kind) { wild = wild };
    } }
{
    let other = table.shared.split_seat::<TwoEnds>(&mut seat);
    (
        Ring {
            table,
            capacity: capacity as u16,
            alloc,
        },
        Producer {
            seat,
            tail: 0,
            ahead: 0,
            waiter: Waiter::Off,
            ringer: Ringer::Free,
            wild,
        },
        Consumer {
            seat: other,
            head: 0,
            ahead: 0,
            waiter: Waiter::Busy,
            ringer: Ringer::Free,
            wild,
        },
    )
}

/// A ring of that kind in its start state, with its two ends: it is empty, forward the consumer is
/// busy and would be notified, backward the producer wants no notification. Memory is the answer
/// for want of memory alone.
pub fn open(
    alloc: Global,
    kind: QueueKind,
    capacity: u32,
) -> Result<(Ring, Producer, Consumer), Memory>
    requires { IsCapacity capacity }
    ensures ring { IfOk result (λ r. (r.0.kind ≡ kind) × (r.0.id.slots ≡ capacity)
        × (r.0.wild ≡ false)) }
    ensures producer { IfOk result (λ r. r.1
        ≡ record { ring = r.0.id; knows = first_producer kind }) }
    ensures consumer { IfOk result (λ r. r.2
        ≡ record { ring = r.0.id; knows = first_consumer kind }) }
{
    let terms = Terms { kind, wild: false };
    let (table, seat) = Board::vacant(alloc, &START, capacity as usize, &terms)?;
    Ok(two_ends(alloc, table, seat, capacity, false))
}

/// A wild ring in its start state, in whose six words either end may store what it likes: it has
/// one guard more for each place, 1 where an entry stands there, and no `store` names a guard. Each
/// end goes by the guards, so a neighbour that keeps no rule may withhold entries and room, and
/// never make an end take what was not sent or put where an entry stands.
pub fn open_wild(
    alloc: Global,
    kind: QueueKind,
    capacity: u32,
) -> Result<(Ring, Producer, Consumer), Memory>
    requires { IsCapacity capacity }
    ensures ring { IfOk result (λ r. (r.0.kind ≡ kind) × (r.0.id.slots ≡ capacity)
        × (r.0.wild ≡ true)) }
    ensures producer { IfOk result (λ r. r.1
        ≡ record { ring = r.0.id; knows = wild_producer kind }) }
    ensures consumer { IfOk result (λ r. r.2
        ≡ record { ring = r.0.id; knows = wild_consumer kind }) }
{
    let places = capacity as usize;
    let mut words = vec![in alloc; 0; GUARDS + places]?;
    words[FLAG_BACK] = 1;
    let terms = Terms { kind, wild: true };
    let (table, seat) = Board::vacant(alloc, &words, places, &terms)?;
    Ok(two_ends(alloc, table, seat, capacity, true))
}
