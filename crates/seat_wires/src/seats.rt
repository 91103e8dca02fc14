//! The ends of one actor over shared rings, as the calls of `Wires`: a step that is generic over
//! `Wires` runs over a ring as it does over the world of lists.
ghost use Rattle.std.specs.Prelude.{◌≡◌, ◌<◌, ◌≤◌, ℕ, [], length, slice_get, Some, None, OnOk};
ghost use Rattle.std.specs.Prelude.{IfErr, IfSome, IfNone, true};
ghost use Rattle.spsc_queue.specs.Known.Ends.{RingIs};
ghost use Rattle.wire_core.specs.Deeds.{plain_deed};
ghost use Rattle.wire_core.specs.Ends as roles;
ghost use Rattle.seat_wires.specs.Places.{seat_end, SeatDid, stands_at, EndsOn, SameEnds, SetsEnd};
ghost use Rattle.seat_wires.specs.Places.{IsWildRing, IsWildSeat};
ghost use Rattle.seat_wires.specs.Wildness.{stays};

use crate::places::{last_end, reach};
use crate::putting::put_at;
use cargo_core::{Body, Item, Word};
use spsc_queue::{Consumer, Producer, Ring};
use std::alloc::Global;
use std::marker::{Brand, Model};
use std::snapshot::Snapshot;
use wire_core::{Op, QueueId, Side, WildWires, Wires};

/// The ends of one actor over shared rings. The ends of the queue at a place, where they are its
/// own, stand at that place, as the ring does. The ten calls are those of the ends, so each takes
/// constant time and no memory, and waits for nobody; so does the store of a word of a wild ring,
/// by whichever end is there. Each entry is put at a time after all that passed at these ends
/// before, so what was done on all rings stands in one order.
#[derive(Drop)]
pub struct Seats<'a> {
    rings: &'a [Ring],
    producers: Vec<Option<Producer>>,
    consumers: Vec<Option<Consumer>>,
}

impl<'a> Model for Seats<'a> {
    ghost use Rattle.seat_wires.specs.Places.Are.{SeatsAre};

    ghost Value = { SeatsAre };

    ghost use Rattle.seat_wires.specs.Inside.{seats_are, FitSeats};

    ghost view = { seats_are };

    ghost invariant = { FitSeats };
}

impl<'a> Seats<'a> {
    /// No end yet. It takes no memory.
    pub fn new(alloc: Global, rings: &'a [Ring]) -> Seats<'a>
        ensures { result ≡ record { rings = rings.now; producers = []; consumers = [] } }
    {
        Seats {
            rings,
            producers: Vec::new(alloc),
            consumers: Vec::new(alloc),
        }
    }

    /// Adds the producing end of the ring at a place. Err, which hands the end back, is the answer
    /// for want of memory.
    pub fn add_producer(&mut self, q: QueueId, end: Producer) -> Result<(), Producer>
        requires on { (r : RingIs) × (slice_get self.old.rings q.0 ≡ Some r) × (end.ring ≡ r.id) }
        requires free { stands_at self.old.producers q.0 ≡ None }
        ensures ok { OnOk result (SetsEnd self.old.producers q.0 (Some end) self.new.producers) }
        ensures err { IfErr result (λ e. (e ≡ end)
            × SameEnds self.old.producers self.new.producers) }
        ensures rest { (self.new.consumers ≡ self.old.consumers)
            × (self.new.rings ≡ self.old.rings) }
    {
        let place = q.0 as usize;
        if reach(&mut self.producers, place).is_err() {
            return Err(end);
        }
        self.producers[place] = Some(end);
        Ok(())
    }

    /// Takes out a producing end, the one at the greatest place; None where none is left.
    pub fn next_producer(&mut self) -> Option<(QueueId, Producer)>
        ensures some { IfSome result (λ r. (stands_at self.old.producers r.0.0 ≡ Some r.1)
            × SetsEnd self.old.producers r.0.0 None self.new.producers) }
        ensures last { IfSome result (λ r. (n : ℕ) → r.0.0 < n
            → stands_at self.old.producers n ≡ None) }
        ensures none { IfNone result ((n : ℕ) → stands_at self.old.producers n ≡ None) }
        ensures left { IfNone result ((n : ℕ) → stands_at self.new.producers n ≡ None) }
        ensures rest { (self.new.consumers ≡ self.old.consumers)
            × (self.new.rings ≡ self.old.rings) }
    {
        match last_end(&mut self.producers) {
            Some((place, end)) => Some((QueueId(place as u16), end)),
            None => None,
        }
    }

    /// Adds the consuming end of the ring at a place. Err, which hands the end back, is the answer
    /// for want of memory.
    pub fn add_consumer(&mut self, q: QueueId, end: Consumer) -> Result<(), Consumer>
        requires on { (r : RingIs) × (slice_get self.old.rings q.0 ≡ Some r) × (end.ring ≡ r.id) }
        requires free { stands_at self.old.consumers q.0 ≡ None }
        ensures ok { OnOk result (SetsEnd self.old.consumers q.0 (Some end) self.new.consumers) }
        ensures err { IfErr result (λ e. (e ≡ end)
            × SameEnds self.old.consumers self.new.consumers) }
        ensures rest { (self.new.producers ≡ self.old.producers)
            × (self.new.rings ≡ self.old.rings) }
    {
        let place = q.0 as usize;
        if reach(&mut self.consumers, place).is_err() {
            return Err(end);
        }
        self.consumers[place] = Some(end);
        Ok(())
    }

    /// Takes out a consuming end, the one at the greatest place; None where none is left.
    pub fn next_consumer(&mut self) -> Option<(QueueId, Consumer)>
        ensures some { IfSome result (λ r. (stands_at self.old.consumers r.0.0 ≡ Some r.1)
            × SetsEnd self.old.consumers r.0.0 None self.new.consumers) }
        ensures last { IfSome result (λ r. (n : ℕ) → r.0.0 < n
            → stands_at self.old.consumers n ≡ None) }
        ensures none { IfNone result ((n : ℕ) → stands_at self.old.consumers n ≡ None) }
        ensures left { IfNone result ((n : ℕ) → stands_at self.new.consumers n ≡ None) }
        ensures rest { (self.new.producers ≡ self.old.producers)
            × (self.new.rings ≡ self.old.rings) }
    {
        match last_end(&mut self.consumers) {
            Some((place, end)) => Some((QueueId(place as u16), end)),
            None => None,
        }
    }

    /// The ends of one actor, each at its queue's place.
    pub fn of(
        rings: &'a [Ring],
        producers: Vec<Option<Producer>>,
        consumers: Vec<Option<Consumer>>,
    ) -> Seats<'a>
        requires producers { EndsOn rings.now producers.items × (length producers.items ≤ 65536) }
        requires consumers { EndsOn rings.now consumers.items × (length consumers.items ≤ 65536) }
        ensures { result ≡ record {
          rings = rings.now;
          producers = producers.items;
          consumers = consumers.items;
        } }
    {
        Seats {
            rings,
            producers,
            consumers,
        }
    }

    /// Its ends again, each at its queue's place.
    pub fn into_ends(self) -> (Vec<Option<Producer>>, Vec<Option<Consumer>>)
        ensures producers { (result.0.items ≡ self.entry.producers)
            × EndsOn self.entry.rings result.0.items × (length result.0.items ≤ 65536) }
        ensures consumers { (result.1.items ≡ self.entry.consumers)
            × EndsOn self.entry.rings result.1.items × (length result.1.items ≤ 65536) }
    {
        let Seats {
            rings: _,
            producers,
            consumers,
        } = self;
        (producers, consumers)
    }

    // Whether the consuming end of a queue is its own.
    fn consumes(&self, q: QueueId) -> bool
        ensures { result ≡ (seat_end self.now roles.Consumer q.0).owned }
    {
        let place = q.0 as usize;
        place < self.consumers.len() && self.consumers[place].is_some()
    }

    // Stores a value in a word by the consuming end.
    fn store_by_consumer(&mut self, q: QueueId, word: Word, value: u64)
        requires owned { (seat_end self.old roles.Consumer q.0).owned ≡ true }
        requires wild { IsWildRing self.old.rings q.0 }
        ensures { SeatDid self.old (plain_deed q (Op.Store word value)) self.new }
    {
        let place = q.0 as usize;
        let ring = &self.rings[place];
        let Some(end) = &mut self.consumers[place] else {
            unreachable!()
        };
        end.store(ring, word, value);
    }

    // Stores a value in a word by the producing end.
    fn store_by_producer(&mut self, q: QueueId, word: Word, value: u64)
        requires owned { (seat_end self.old roles.Producer q.0).owned ≡ true }
        requires wild { IsWildRing self.old.rings q.0 }
        ensures { SeatDid self.old (plain_deed q (Op.Store word value)) self.new }
    {
        let place = q.0 as usize;
        let ring = &self.rings[place];
        let Some(end) = &mut self.producers[place] else {
            unreachable!()
        };
        end.store(ring, word, value);
    }
}

impl<'a> Wires for Seats<'a> {
    ghost ends = { seat_end };

    ghost did = { λ old d new. SeatDid old d new };

    fn see(&mut self, q: QueueId) -> bool {
        let place = q.0 as usize;
        let ring = &self.rings[place];
        let Some(end) = &mut self.consumers[place] else {
            unreachable!()
        };
        end.see(ring)
    }

    fn room(&mut self, q: QueueId) -> bool {
        let place = q.0 as usize;
        let ring = &self.rings[place];
        let Some(end) = &mut self.producers[place] else {
            unreachable!()
        };
        end.room(ring)
    }

    fn take(&mut self, q: QueueId) -> (Item, Body) {
        let place = q.0 as usize;
        let ring = &self.rings[place];
        let Some(end) = &mut self.consumers[place] else {
            unreachable!()
        };
        end.take(ring)
    }

    fn put(&mut self, q: QueueId, item: Item, body: Body) {
        let known = Snapshot::of(self);
        let place = q.0 as usize;
        let ring = &self.rings[place];
        let Some(end) = &mut self.producers[place] else {
            unreachable!()
        };
        put_at::<Brand>(end, ring, item, body, known);
    }

    fn ask(&mut self, q: QueueId, side: Side) {
        let place = q.0 as usize;
        let ring = &self.rings[place];
        match side {
            Side::Forward => {
                let Some(end) = &mut self.consumers[place] else {
                    unreachable!()
                };
                end.ask(ring);
            }
            Side::Backward => {
                let Some(end) = &mut self.producers[place] else {
                    unreachable!()
                };
                end.ask(ring);
            }
        }
    }

    fn waive(&mut self, q: QueueId, side: Side) {
        let place = q.0 as usize;
        let ring = &self.rings[place];
        match side {
            Side::Forward => {
                let Some(end) = &mut self.consumers[place] else {
                    unreachable!()
                };
                end.waive(ring);
            }
            Side::Backward => {
                let Some(end) = &mut self.producers[place] else {
                    unreachable!()
                };
                end.waive(ring);
            }
        }
    }

    fn wake(&mut self, q: QueueId, side: Side) -> bool {
        let place = q.0 as usize;
        let ring = &self.rings[place];
        match side {
            Side::Forward => {
                let Some(end) = &mut self.consumers[place] else {
                    unreachable!()
                };
                end.wake(ring)
            }
            Side::Backward => {
                let Some(end) = &mut self.producers[place] else {
                    unreachable!()
                };
                end.wake(ring)
            }
        }
    }

    fn wanted(&mut self, q: QueueId, side: Side) -> bool {
        let place = q.0 as usize;
        let ring = &self.rings[place];
        match side {
            Side::Forward => {
                let Some(end) = &mut self.producers[place] else {
                    unreachable!()
                };
                end.wanted(ring)
            }
            Side::Backward => {
                let Some(end) = &mut self.consumers[place] else {
                    unreachable!()
                };
                end.wanted(ring)
            }
        }
    }

    fn settle(&mut self, q: QueueId, side: Side) {
        let place = q.0 as usize;
        let ring = &self.rings[place];
        match side {
            Side::Forward => {
                let Some(end) = &mut self.producers[place] else {
                    unreachable!()
                };
                end.settle(ring);
            }
            Side::Backward => {
                let Some(end) = &mut self.consumers[place] else {
                    unreachable!()
                };
                end.settle(ring);
            }
        }
    }

    fn ring(&mut self, q: QueueId, side: Side) {
        let place = q.0 as usize;
        let ring = &self.rings[place];
        match side {
            Side::Forward => {
                let Some(end) = &mut self.producers[place] else {
                    unreachable!()
                };
                end.ring(ring);
            }
            Side::Backward => {
                let Some(end) = &mut self.consumers[place] else {
                    unreachable!()
                };
                end.ring(ring);
            }
        }
    }
}

impl<'a> WildWires for Seats<'a> {
    ghost wild = { IsWildSeat };

    fn store(&mut self, q: QueueId, word: Word, value: u64) {
        if self.consumes(q) {
            self.store_by_consumer(q, word, value);
        } else {
            self.store_by_producer(q, word, value);
        }
    }

    ghost stays = { stays };
}
