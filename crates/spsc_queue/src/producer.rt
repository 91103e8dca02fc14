//! The producing end: each call is one step on one word of the ring, and the queue law's next event
//! on its queue. On a wild ring a look is up to two steps, the last of which is the event, and a
//! `put` two, the first of which is it.
ghost use Rattle.std.specs.Prelude.{◌≡◌, ◌<◌, true, false, [], ◌∷◌, ◌++◌, length, Some, nat_eq};
ghost use Rattle.atomic_table.specs.Table.{rest};
ghost use Rattle.cargo_core.specs.Items.{kind_of};
ghost use Rattle.wire_core.specs.Deeds.{answer_of};
ghost use Rattle.wire_core.specs.Ends.{Condition, end_after};
ghost use Rattle.spsc_queue.specs.Rule.{Slot, head_word, tail_word, guard_word, wrap};
ghost use Rattle.spsc_queue.specs.Steps.{EndDid, RoomDid, known_end, last_value, tells_room};
ghost use Rattle.spsc_queue.specs.Steps.{room_kept, room_read, fits_room, index_read, after_look};
ghost use Rattle.spsc_queue.specs.Steps.{empty_if, sent_one, passed};

use crate::clock::Clock;
use crate::plays;
use crate::ring::Ring;
use crate::rule::{
    Board, FLAG, FLAG_BACK, GUARDS, HEAD, PENDING, PENDING_BACK, Place, TAIL, kept_of, place_of,
};
use crate::waiting::looked;
use cargo_core::{Body, Item, Word, slot_of};
use std::marker::Model;
use wire_core::{Answer, Op, Ringer, Side, Waiter};

/// The end that puts entries. It keeps its own index, for how many entries there is room by the
/// head that it read last, and what it is about on the two bells; its calls take no memory and wait
/// for nobody.
#[derive(Drop)]
pub struct Producer {
    pub(crate) seat: Place,
    pub(crate) tail: u16,
    pub(crate) ahead: u64,
    pub(crate) waiter: Waiter,
    pub(crate) ringer: Ringer,
    // Whether the ring is wild.
    pub(crate) wild: bool,
}

impl Model for Producer {
    ghost use Rattle.spsc_queue.specs.Known.Ends.{EndIs};

    ghost Value = { EndIs };

    ghost use Rattle.spsc_queue.specs.Known.{producer_is, IsProducer};

    ghost view = { producer_is };

    ghost invariant = { IsProducer };
}

// Writes an entry in the slot that the seat holds, where the slot lies.
fn fill(seat: &mut Place, board: &Board, slot: usize, item: Item, body: Body)
    requires { (seat.old.table_id ≡ board.now.shared.table_id)
        × ((old : Slot) × (seat.old.me.1 ≡ (slot, old) ∷ rest seat.old.me.1)) }
    ensures { (seat.new.table_id ≡ seat.old.table_id) × (seat.new.id ≡ seat.old.id)
        × (seat.new.me ≡ (seat.old.me.0, (slot, Some (item, body)) ∷ rest seat.old.me.1)) }
{
    let place = seat.slot_mut(&board.shared, slot);
    *place = Some((item, body));
}

impl Producer {
    // A look at its own index, where it knows of room.
    fn room_again(&mut self, ring: &Ring)
        requires own { self.old.ring ≡ ring.now.id }
        requires condition { Condition (known_end self.old.knows) Op.Room }
        requires known { 0 < self.old.knows.ahead }
        requires sort { self.old.knows.wild ≡ false }
        ensures own { self.new.ring ≡ self.old.ring }
        ensures did { self.new.knows ≡ room_kept self.old.knows tail_word
            (last_value self.new.knows) }
    {
        ring.table
            .shared
            .load::<plays::RoomAgain>(&mut self.seat, TAIL);
    }

    // A look at the head.
    fn room_anew(&mut self, ring: &Ring) -> bool
        requires own { self.old.ring ≡ ring.now.id }
        requires condition { Condition (known_end self.old.knows) Op.Room }
        requires sort { self.old.knows.wild ≡ false }
        ensures own { self.new.ring ≡ self.old.ring }
        ensures did { self.new.knows ≡ room_read self.old.ring.slots self.old.knows head_word
            (last_value self.new.knows) }
        ensures answer { result ≡ tells_room self.old.ring.slots (length self.old.knows.entries)
            (last_value self.new.knows) }
    {
        let head = ring.table.shared.load::<plays::Room>(&mut self.seat, HEAD);
        let has_room = (head as u16).wrapping_add(ring.capacity) != self.tail;
        let end = head % 65536 + u64::from(ring.capacity);
        self.ahead = (end + (65536 - u64::from(self.tail))) % 65536;
        if !has_room && self.waiter == Waiter::Asked {
            self.waiter = Waiter::Clear;
        }
        has_room
    }

    // A look on a ring that isn't wild.
    fn room_plain(&mut self, ring: &Ring) -> bool
        requires own { self.old.ring ≡ ring.now.id }
        requires condition { Condition (known_end self.old.knows) Op.Room }
        requires sort { self.old.knows.wild ≡ false }
        ensures own { self.new.ring ≡ self.old.ring }
        ensures did { RoomDid false self.old.ring.slots self.old.knows
            (last_value self.new.knows) (answer_of result) [] self.new.knows }
    {
        if self.ahead != 0 {
            self.room_again(ring);
            return true;
        }
        self.room_anew(ring)
    }

    // A load of the head of a wild ring: whether it tells of room. A no ends the look.
    fn room_head(&mut self, ring: &Ring) -> bool
        requires own { self.old.ring ≡ ring.now.id }
        requires condition { Condition (known_end self.old.knows) Op.Room }
        requires sort { self.old.knows.wild ≡ true }
        ensures own { self.new.ring ≡ self.old.ring }
        ensures did { self.new.knows ≡ index_read result head_word (last_value self.new.knows)
            self.old.knows }
        ensures answer { result ≡ fits_room self.old.ring.slots (length self.old.knows.entries)
            (last_value self.new.knows) }
    {
        let head = ring
            .table
            .shared
            .load::<plays::HeadRead>(&mut self.seat, HEAD);
        let stand = (u64::from(self.tail) + (65536 - head % 65536)) % 65536;
        let fits = stand < u64::from(ring.capacity);
        self.waiter = looked(self.waiter, fits);
        fits
    }

    // A load of the guard at its own place: whether the place is free.
    fn room_guard(&mut self, ring: &Ring) -> bool
        requires own { self.old.ring ≡ ring.now.id }
        requires sort { self.old.knows.wild ≡ true }
        ensures own { self.new.ring ≡ self.old.ring }
        ensures did { self.new.knows ≡ after_look (nat_eq (last_value self.new.knows) 0)
            (guard_word self.old.ring.slots (length self.old.knows.entries))
            (last_value self.new.knows) (empty_if (nat_eq (last_value self.new.knows) 0))
            self.old.knows.ahead self.old.knows }
        ensures answer { result ≡ nat_eq (last_value self.new.knows) 0 }
    {
        let place = slot_of(self.tail, ring.capacity);
        let guard = ring
            .table
            .shared
            .load::<plays::RoomGuard>(&mut self.seat, GUARDS + place);
        let has_room = guard == 0;
        self.waiter = looked(self.waiter, has_room);
        has_room
    }

    // A look on a wild ring.
    fn room_guarded(&mut self, ring: &Ring) -> bool
        requires own { self.old.ring ≡ ring.now.id }
        requires condition { Condition (known_end self.old.knows) Op.Room }
        requires sort { self.old.knows.wild ≡ true }
        ensures own { self.new.ring ≡ self.old.ring }
        ensures did { RoomDid true self.old.ring.slots self.old.knows
            (last_value self.new.knows) (answer_of result) [] self.new.knows }
    {
        if !self.room_head(ring) {
            return false;
        }
        self.room_guard(ring)
    }

    /// Whether the queue has room at this step. A no makes a waiter that asked clear. Where the
    /// head that was read last tells of room, it isn't read again: a look at one's own index is the
    /// step. On a wild ring the head is read at each look, and where it tells of room, the guard at
    /// the end's own place answers: only where fewer entries than the capacity stand, whatever the
    /// head is. So a look there may answer no while the slot of a former yes is granted, and the
    /// slot then goes home.
    #[tactic(auto, using(crate::proofs::Rows::end_did))]
    pub fn room(&mut self, ring: &Ring) -> bool
        requires own { self.old.ring ≡ ring.now.id }
        requires condition { Condition (known_end self.old.knows) Op.Room }
        ensures own { self.new.ring ≡ self.old.ring }
        ensures did { EndDid self.old.ring.slots self.old.knows Op.Room
            (answer_of result) [] self.new.knows }
        ensures end { known_end self.new.knows
            ≡ end_after (known_end self.old.knows) Op.Room (answer_of result) }
    {
        if self.wild {
            return self.room_guarded(ring);
        }
        self.room_plain(ring)
    }

    // A put on a ring that isn't wild.
    fn put_plain<C: Clock>(&mut self, ring: &Ring, item: Item, body: Body)
        requires own { self.old.ring ≡ ring.now.id }
        requires condition { Condition (known_end self.old.knows) Op.Put }
        requires kind { kind_of item ≡ self.old.knows.kind }
        requires sort { self.old.knows.wild ≡ false }
        ensures own { self.new.ring ≡ self.old.ring }
        ensures did { EndDid self.old.ring.slots self.old.knows Op.Put Answer.Done
            ((item, body) ∷ []) self.new.knows }
        ensures time { self.new.knows.times ≡ self.old.knows.times ++ C.time ∷ [] }
    {
        let slot = slot_of(self.tail, ring.capacity);
        let next = self.tail.wrapping_add(1);
        fill(&mut self.seat, &ring.table, slot, item, body);
        ring.table
            .shared
            .store::<plays::Put<C>>(&mut self.seat, TAIL, u64::from(next));
        self.tail = next;
        self.ahead = self.ahead.saturating_sub(1);
        self.ringer = Ringer::Put;
    }

    // Puts an entry in its place on a wild ring, and stores to its guard that one is there.
    fn fill_guard<C: Clock>(&mut self, ring: &Ring, item: Item, body: Body)
        requires own { self.old.ring ≡ ring.now.id }
        requires condition { Condition (known_end self.old.knows) Op.Put }
        requires kind { kind_of item ≡ self.old.knows.kind }
        requires sort { self.old.knows.wild ≡ true }
        ensures own { self.new.ring ≡ self.old.ring }
        ensures did { self.new.knows ≡ sent_one (item, body) C.time
            (guard_word self.old.ring.slots (length self.old.knows.entries)) 1 self.old.knows }
    {
        let place = slot_of(self.tail, ring.capacity);
        let next = self.tail.wrapping_add(1);
        let ahead = self.ahead.saturating_sub(1);
        fill(&mut self.seat, &ring.table, place, item, body);
        ring.table
            .shared
            .store::<plays::Put<C>>(&mut self.seat, GUARDS + place, 1);
        self.tail = next;
        self.ahead = ahead;
        self.ringer = Ringer::Put;
    }

    // Stores its own index in the tail of a wild ring.
    fn store_tail(&mut self, ring: &Ring)
        requires own { self.old.ring ≡ ring.now.id }
        requires sort { self.old.knows.wild ≡ true }
        ensures own { self.new.ring ≡ self.old.ring }
        ensures did { self.new.knows ≡ passed tail_word (wrap (length self.old.knows.entries))
            self.old.knows }
    {
        ring.table
            .shared
            .store::<plays::ProducerPassed>(&mut self.seat, TAIL, u64::from(self.tail));
    }

    // A put on a wild ring.
    fn put_guarded<C: Clock>(&mut self, ring: &Ring, item: Item, body: Body)
        requires own { self.old.ring ≡ ring.now.id }
        requires condition { Condition (known_end self.old.knows) Op.Put }
        requires kind { kind_of item ≡ self.old.knows.kind }
        requires sort { self.old.knows.wild ≡ true }
        ensures own { self.new.ring ≡ self.old.ring }
        ensures did { EndDid self.old.ring.slots self.old.knows Op.Put Answer.Done
            ((item, body) ∷ []) self.new.knows }
        ensures time { self.new.knows.times ≡ self.old.knows.times ++ C.time ∷ [] }
    {
        self.fill_guard::<C>(ring, item, body);
        self.store_tail(ring);
    }

    /// Puts an entry of the ring's kind behind the others, at the time that the caller picks. The
    /// last look must have answered yes, and is then used. On a wild ring the guard is stored
    /// first, and then the tail.
    #[tactic(auto, using(crate::proofs::Rows::end_did))]
    pub fn put<C: Clock>(&mut self, ring: &Ring, item: Item, body: Body)
        requires own { self.old.ring ≡ ring.now.id }
        requires condition { Condition (known_end self.old.knows) Op.Put }
        requires kind { kind_of item ≡ self.old.knows.kind }
        ensures own { self.new.ring ≡ self.old.ring }
        ensures did { EndDid self.old.ring.slots self.old.knows Op.Put Answer.Done
            ((item, body) ∷ []) self.new.knows }
        ensures time { self.new.knows.times ≡ self.old.knows.times ++ C.time ∷ [] }
        ensures end { known_end self.new.knows
            ≡ end_after (known_end self.old.knows) Op.Put Answer.Done }
    {
        if self.wild {
            self.put_guarded::<C>(ring, item, body);
        } else {
            self.put_plain::<C>(ring, item, body);
        }
    }

    /// Stores a value in one of the six words of a wild ring, whose end keeps no rule there: an
    /// index word holds 16 bits of it, each other word one. It changes nothing that the end knows
    /// but what it walked.
    pub fn store(&mut self, ring: &Ring, word: Word, value: u64)
        requires own { self.old.ring ≡ ring.now.id }
        requires wild { ring.now.wild ≡ true }
        ensures own { self.new.ring ≡ self.old.ring }
        ensures did { EndDid self.old.ring.slots self.old.knows (Op.Store word value)
            Answer.Done [] self.new.knows }
        ensures end { known_end self.new.knows ≡ known_end self.old.knows }
    {
        ring.table
            .shared
            .store::<plays::ProducerPassed>(&mut self.seat, place_of(word), kept_of(word, value));
    }

    /// Whether the consumer wants a notification of entries, by the flag.
    pub fn wanted(&mut self, ring: &Ring) -> bool
        requires own { self.old.ring ≡ ring.now.id }
        requires condition { Condition (known_end self.old.knows) (Op.Wanted Side.Forward) }
        ensures own { self.new.ring ≡ self.old.ring }
        ensures did { EndDid self.old.ring.slots self.old.knows (Op.Wanted Side.Forward)
            (answer_of result) [] self.new.knows }
    {
        let flag = ring
            .table
            .shared
            .load::<plays::Wanted>(&mut self.seat, FLAG);
        let is_wanted = flag == 0;
        self.ringer = if is_wanted { Ringer::Hot } else { Ringer::Free };
        is_wanted
    }

    /// Takes the consumer's wish back before it is met, so that it is met once: the flag is 1.
    pub fn settle(&mut self, ring: &Ring)
        requires own { self.old.ring ≡ ring.now.id }
        requires condition { Condition (known_end self.old.knows) (Op.Settle Side.Forward) }
        ensures own { self.new.ring ≡ self.old.ring }
        ensures did { EndDid self.old.ring.slots self.old.knows
            (Op.Settle Side.Forward) Answer.Done [] self.new.knows }
    {
        ring.table
            .shared
            .store::<plays::Settle>(&mut self.seat, FLAG, 1);
        self.ringer = Ringer::Ringing;
    }

    /// Notifies the consumer: a notification is pending.
    pub fn ring(&mut self, ring: &Ring)
        requires own { self.old.ring ≡ ring.now.id }
        requires condition { Condition (known_end self.old.knows) (Op.Ring Side.Forward) }
        ensures own { self.new.ring ≡ self.old.ring }
        ensures did { EndDid self.old.ring.slots self.old.knows
            (Op.Ring Side.Forward) Answer.Done [] self.new.knows }
    {
        ring.table
            .shared
            .store::<plays::Ring>(&mut self.seat, PENDING, 1);
        self.ringer = Ringer::Free;
    }

    /// Asks for a notification of room: the flag is 0.
    pub fn ask(&mut self, ring: &Ring)
        requires own { self.old.ring ≡ ring.now.id }
        requires condition { Condition (known_end self.old.knows) (Op.Ask Side.Backward) }
        ensures own { self.new.ring ≡ self.old.ring }
        ensures did { EndDid self.old.ring.slots self.old.knows
            (Op.Ask Side.Backward) Answer.Done [] self.new.knows }
    {
        ring.table
            .shared
            .store::<plays::AskBack>(&mut self.seat, FLAG_BACK, 0);
        self.waiter = Waiter::Asked;
    }

    /// Wants no notification of room: the flag is 1.
    pub fn waive(&mut self, ring: &Ring)
        requires own { self.old.ring ≡ ring.now.id }
        requires condition { Condition (known_end self.old.knows) (Op.Waive Side.Backward) }
        ensures own { self.new.ring ≡ self.old.ring }
        ensures did { EndDid self.old.ring.slots self.old.knows
            (Op.Waive Side.Backward) Answer.Done [] self.new.knows }
    {
        ring.table
            .shared
            .store::<plays::WaiveBack>(&mut self.seat, FLAG_BACK, 1);
        self.waiter = Waiter::Off;
    }

    /// Whether a notification of room was pending; it is taken, and the producer is busy.
    pub fn wake(&mut self, ring: &Ring) -> bool
        requires own { self.old.ring ≡ ring.now.id }
        requires condition { Condition (known_end self.old.knows) (Op.Wake Side.Backward) }
        ensures own { self.new.ring ≡ self.old.ring }
        ensures did { EndDid self.old.ring.slots self.old.knows (Op.Wake Side.Backward)
            (answer_of result) [] self.new.knows }
    {
        let pending = ring
            .table
            .shared
            .swap::<plays::WakeBack>(&mut self.seat, PENDING_BACK, 0);
        let is_woken = pending == 1;
        if is_woken {
            self.waiter = Waiter::Busy;
        }
        is_woken
    }
}
