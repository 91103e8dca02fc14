//! The consuming end: each call is one step on one word of the ring, and the queue law's next event
//! on its queue. On a wild ring a look is up to two steps, the last of which is the event, and a
//! `take` two, the first of which is it.
ghost use Rattle.std.specs.Prelude.{◌≡◌, ◌<◌, true, false, [], ◌∷◌, length, Some, nat_eq, ℕ};
ghost use Rattle.cargo_core.specs.Items.{kind_of};
ghost use Rattle.wire_core.specs.Deeds.{answer_of};
ghost use Rattle.wire_core.specs.Ends.{Condition, end_after};
ghost use Rattle.spsc_queue.specs.Rule.{head_word, tail_word, guard_word, wrap};
ghost use Rattle.spsc_queue.specs.Steps.{EndDid, SeeDid, known_end, last_value, tells_entry};
ghost use Rattle.spsc_queue.specs.Steps.{see_kept, see_read, Granted, fits_entry, index_read};
ghost use Rattle.spsc_queue.specs.Steps.{after_look, took_one, passed};

use crate::plays;
use crate::ring::Ring;
use crate::rule::{
    FLAG, FLAG_BACK, GUARDS, HEAD, PENDING, PENDING_BACK, Place, TAIL, kept_of, place_of,
};
use crate::waiting::looked;
use cargo_core::{Body, Item, Word, slot_of};
use std::marker::Model;
use wire_core::{Answer, Op, Ringer, Side, Waiter};

/// The end that takes entries. It keeps its own index, how many entries stand there by the tail
/// that it read last, and what it is about on the two bells; its calls take no memory and wait for
/// nobody.
#[derive(Drop)]
pub struct Consumer {
    pub(crate) seat: Place,
    pub(crate) head: u16,
    pub(crate) ahead: u64,
    pub(crate) waiter: Waiter,
    pub(crate) ringer: Ringer,
    // Whether the ring is wild.
    pub(crate) wild: bool,
}

impl Model for Consumer {
    ghost use Rattle.spsc_queue.specs.Known.Ends.{EndIs};

    ghost Value = { EndIs };

    ghost use Rattle.spsc_queue.specs.Known.{consumer_is, IsConsumer};

    ghost view = { consumer_is };

    ghost invariant = { IsConsumer };
}

impl Consumer {
    // A look at its own index, where it knows of an entry.
    fn see_again(&mut self, ring: &Ring)
        requires own { self.old.ring ≡ ring.now.id }
        requires condition { Condition (known_end self.old.knows) Op.See }
        requires known { 0 < self.old.knows.ahead }
        requires sort { self.old.knows.wild ≡ false }
        ensures own { self.new.ring ≡ self.old.ring }
        ensures did { self.new.knows ≡ see_kept self.new.knows.grant self.old.knows head_word
            (last_value self.new.knows) }
        ensures granted { Granted self.old.knows.kind true self.new.knows.grant }
    {
        ring.table
            .shared
            .load::<plays::SeeAgain>(&mut self.seat, HEAD);
    }

    // A look at the tail.
    fn see_anew(&mut self, ring: &Ring) -> bool
        requires own { self.old.ring ≡ ring.now.id }
        requires condition { Condition (known_end self.old.knows) Op.See }
        requires sort { self.old.knows.wild ≡ false }
        ensures own { self.new.ring ≡ self.old.ring }
        ensures did { self.new.knows ≡ see_read self.new.knows.grant self.old.knows tail_word
            (last_value self.new.knows) }
        ensures answer { result ≡ tells_entry (length self.old.knows.entries)
            (last_value self.new.knows) }
        ensures granted { Granted self.old.knows.kind
            (tells_entry (length self.old.knows.entries) (last_value self.new.knows))
            self.new.knows.grant }
    {
        let tail = ring.table.shared.load::<plays::See>(&mut self.seat, TAIL);
        let has_entry = tail != u64::from(self.head);
        self.ahead = (tail % 65536 + (65536 - u64::from(self.head))) % 65536;
        if !has_entry && self.waiter == Waiter::Asked {
            self.waiter = Waiter::Clear;
        }
        has_entry
    }

    // A look on a ring that isn't wild.
    fn see_plain(&mut self, ring: &Ring) -> bool
        requires own { self.old.ring ≡ ring.now.id }
        requires condition { Condition (known_end self.old.knows) Op.See }
        requires sort { self.old.knows.wild ≡ false }
        ensures own { self.new.ring ≡ self.old.ring }
        ensures did { SeeDid false self.old.ring.slots self.old.knows
            (last_value self.new.knows) (answer_of result) [] self.new.knows }
    {
        if self.ahead != 0 {
            self.see_again(ring);
            return true;
        }
        self.see_anew(ring)
    }

    // A load of the tail of a wild ring: whether it tells of an entry. A no ends the look.
    fn see_tail(&mut self, ring: &Ring) -> bool
        requires own { self.old.ring ≡ ring.now.id }
        requires condition { Condition (known_end self.old.knows) Op.See }
        requires sort { self.old.knows.wild ≡ true }
        ensures own { self.new.ring ≡ self.old.ring }
        ensures did { self.new.knows ≡ index_read result tail_word (last_value self.new.knows)
            self.old.knows }
        ensures answer { result ≡ fits_entry self.old.ring.slots (length self.old.knows.entries)
            (last_value self.new.knows) }
    {
        let tail = ring
            .table
            .shared
            .load::<plays::TailRead>(&mut self.seat, TAIL);
        let stand = (tail % 65536 + (65536 - u64::from(self.head))) % 65536;
        let fits = 0 < stand && stand <= u64::from(ring.capacity);
        self.waiter = looked(self.waiter, fits);
        fits
    }

    // A load of the guard at its own place: whether an entry stands there.
    fn see_guard(&mut self, ring: &Ring) -> bool
        requires own { self.old.ring ≡ ring.now.id }
        requires sort { self.old.knows.wild ≡ true }
        ensures own { self.new.ring ≡ self.old.ring }
        ensures did { self.new.knows ≡ after_look (nat_eq (last_value self.new.knows) 1)
            (guard_word self.old.ring.slots (length self.old.knows.entries))
            (last_value self.new.knows) self.new.knows.grant self.old.knows.ahead self.old.knows }
        ensures answer { result ≡ nat_eq (last_value self.new.knows) 1 }
        ensures granted { Granted self.old.knows.kind (nat_eq (last_value self.new.knows) 1)
            self.new.knows.grant }
    {
        let place = slot_of(self.head, ring.capacity);
        let guard = ring
            .table
            .shared
            .load::<plays::EntryGuard>(&mut self.seat, GUARDS + place);
        let has_entry = guard == 1;
        self.waiter = looked(self.waiter, has_entry);
        has_entry
    }

    // A look on a wild ring.
    fn see_guarded(&mut self, ring: &Ring) -> bool
        requires own { self.old.ring ≡ ring.now.id }
        requires condition { Condition (known_end self.old.knows) Op.See }
        requires sort { self.old.knows.wild ≡ true }
        ensures own { self.new.ring ≡ self.old.ring }
        ensures did { SeeDid true self.old.ring.slots self.old.knows
            (last_value self.new.knows) (answer_of result) [] self.new.knows }
    {
        if !self.see_tail(ring) {
            return false;
        }
        self.see_guard(ring)
    }

    /// Whether an entry stands in the queue at this step. A no makes a waiter that asked clear.
    /// Where the tail that was read last tells of an entry, it isn't read again: a look at one's
    /// own index is the step. On a wild ring the tail is read at each look, and where it tells of
    /// an entry, the guard at the end's own place answers: only where one stands there, whatever
    /// the tail is. So a look there may answer no while the slot of a former yes is granted, and
    /// the slot then goes home.
    #[tactic(auto, using(crate::proofs::Rows::end_did))]
    pub fn see(&mut self, ring: &Ring) -> bool
        requires own { self.old.ring ≡ ring.now.id }
        requires condition { Condition (known_end self.old.knows) Op.See }
        ensures own { self.new.ring ≡ self.old.ring }
        ensures did { EndDid self.old.ring.slots self.old.knows Op.See
            (answer_of result) [] self.new.knows }
        ensures end { known_end self.new.knows
            ≡ end_after (known_end self.old.knows) Op.See (answer_of result) }
    {
        if self.wild {
            return self.see_guarded(ring);
        }
        self.see_plain(ring)
    }

    // A take on a ring that isn't wild.
    fn take_plain(&mut self, ring: &Ring) -> (Item, Body)
        requires own { self.old.ring ≡ ring.now.id }
        requires condition { Condition (known_end self.old.knows) Op.Take }
        requires sort { self.old.knows.wild ≡ false }
        ensures own { self.new.ring ≡ self.old.ring }
        ensures did { EndDid self.old.ring.slots self.old.knows Op.Take Answer.Done
            (result ∷ []) self.new.knows }
        ensures kind { kind_of result.0 ≡ self.old.knows.kind }
    {
        let slot = slot_of(self.head, ring.capacity);
        let next = self.head.wrapping_add(1);
        let old = ring.table.shared.exchange(&mut self.seat, slot, None);
        let Some(entry) = old else { unreachable!() };
        ring.table
            .shared
            .store::<plays::Take>(&mut self.seat, HEAD, u64::from(next));
        self.head = next;
        self.ahead = self.ahead.saturating_sub(1);
        self.ringer = Ringer::Put;
        entry
    }

    // Takes the first entry of a wild ring, and stores to its guard that none is there.
    fn empty_guard(&mut self, ring: &Ring) -> (Item, Body)
        requires own { self.old.ring ≡ ring.now.id }
        requires condition { Condition (known_end self.old.knows) Op.Take }
        requires sort { self.old.knows.wild ≡ true }
        ensures own { self.new.ring ≡ self.old.ring }
        ensures was { self.old.knows.grant ≡ Some (Some result) }
        ensures did { (t : ℕ) × (self.new.knows ≡ took_one result t
            (guard_word self.old.ring.slots (length self.old.knows.entries)) 0 self.old.knows) }
        ensures kind { kind_of result.0 ≡ self.old.knows.kind }
    {
        let place = slot_of(self.head, ring.capacity);
        let next = self.head.wrapping_add(1);
        let ahead = self.ahead.saturating_sub(1);
        let old = ring.table.shared.exchange(&mut self.seat, place, None);
        let Some(entry) = old else { unreachable!() };
        ring.table
            .shared
            .store::<plays::Take>(&mut self.seat, GUARDS + place, 0);
        self.head = next;
        self.ahead = ahead;
        self.ringer = Ringer::Put;
        entry
    }

    // Stores its own index in the head of a wild ring.
    fn store_head(&mut self, ring: &Ring)
        requires own { self.old.ring ≡ ring.now.id }
        requires sort { self.old.knows.wild ≡ true }
        ensures own { self.new.ring ≡ self.old.ring }
        ensures did { self.new.knows ≡ passed head_word (wrap (length self.old.knows.entries))
            self.old.knows }
    {
        ring.table
            .shared
            .store::<plays::ConsumerPassed>(&mut self.seat, HEAD, u64::from(self.head));
    }

    // A take on a wild ring.
    fn take_guarded(&mut self, ring: &Ring) -> (Item, Body)
        requires own { self.old.ring ≡ ring.now.id }
        requires condition { Condition (known_end self.old.knows) Op.Take }
        requires sort { self.old.knows.wild ≡ true }
        ensures own { self.new.ring ≡ self.old.ring }
        ensures did { EndDid self.old.ring.slots self.old.knows Op.Take Answer.Done
            (result ∷ []) self.new.knows }
        ensures kind { kind_of result.0 ≡ self.old.knows.kind }
    {
        let entry = self.empty_guard(ring);
        self.store_head(ring);
        entry
    }

    /// Takes the first entry, the next one of what was sent; its item has the ring's kind. The last
    /// look must have answered yes, and is then used. On a wild ring the guard is stored first, and
    /// then the head.
    #[tactic(auto, using(crate::proofs::Rows::end_did))]
    pub fn take(&mut self, ring: &Ring) -> (Item, Body)
        requires own { self.old.ring ≡ ring.now.id }
        requires condition { Condition (known_end self.old.knows) Op.Take }
        ensures own { self.new.ring ≡ self.old.ring }
        ensures did { EndDid self.old.ring.slots self.old.knows Op.Take Answer.Done
            (result ∷ []) self.new.knows }
        ensures kind { kind_of result.0 ≡ self.old.knows.kind }
        ensures end { known_end self.new.knows
            ≡ end_after (known_end self.old.knows) Op.Take Answer.Done }
    {
        if self.wild {
            return self.take_guarded(ring);
        }
        self.take_plain(ring)
    }

    /// Stores a value in one of the six words of a wild ring, whose end keeps no rule there: an
    /// index word holds 16 bits of it, each other word one. It changes nothing that the end knows
    /// but what it walked.
    pub fn store(&mut self, ring: &Ring, word: Word, value: u64)
        requires own { self.old.ring ≡ ring.now.id }
        requires wild { ring.now.wild ≡ true }
        ensures own { self.new.ring ≡ self.old.ring }
        ensures did { EndDid self.old.ring.slots self.old.knows (Op.Store word value)
            Answer.Done [] self.new.knows }
        ensures end { known_end self.new.knows ≡ known_end self.old.knows }
    {
        ring.table
            .shared
            .store::<plays::ConsumerPassed>(&mut self.seat, place_of(word), kept_of(word, value));
    }

    /// Asks for a notification of entries: the flag is 0.
    pub fn ask(&mut self, ring: &Ring)
        requires own { self.old.ring ≡ ring.now.id }
        requires condition { Condition (known_end self.old.knows) (Op.Ask Side.Forward) }
        ensures own { self.new.ring ≡ self.old.ring }
        ensures did { EndDid self.old.ring.slots self.old.knows
            (Op.Ask Side.Forward) Answer.Done [] self.new.knows }
    {
        ring.table
            .shared
            .store::<plays::Ask>(&mut self.seat, FLAG, 0);
        self.waiter = Waiter::Asked;
    }

    /// Wants no notification of entries: the flag is 1.
    pub fn waive(&mut self, ring: &Ring)
        requires own { self.old.ring ≡ ring.now.id }
        requires condition { Condition (known_end self.old.knows) (Op.Waive Side.Forward) }
        ensures own { self.new.ring ≡ self.old.ring }
        ensures did { EndDid self.old.ring.slots self.old.knows
            (Op.Waive Side.Forward) Answer.Done [] self.new.knows }
    {
        ring.table
            .shared
            .store::<plays::Waive>(&mut self.seat, FLAG, 1);
        self.waiter = Waiter::Off;
    }

    /// Whether a notification of entries was pending; it is taken, and the consumer is busy.
    pub fn wake(&mut self, ring: &Ring) -> bool
        requires own { self.old.ring ≡ ring.now.id }
        requires condition { Condition (known_end self.old.knows) (Op.Wake Side.Forward) }
        ensures own { self.new.ring ≡ self.old.ring }
        ensures did { EndDid self.old.ring.slots self.old.knows (Op.Wake Side.Forward)
            (answer_of result) [] self.new.knows }
    {
        let pending = ring
            .table
            .shared
            .swap::<plays::Wake>(&mut self.seat, PENDING, 0);
        let is_woken = pending == 1;
        if is_woken {
            self.waiter = Waiter::Busy;
        }
        is_woken
    }

    /// Whether the producer wants a notification of room, by the flag.
    pub fn wanted(&mut self, ring: &Ring) -> bool
        requires own { self.old.ring ≡ ring.now.id }
        requires condition { Condition (known_end self.old.knows) (Op.Wanted Side.Backward) }
        ensures own { self.new.ring ≡ self.old.ring }
        ensures did { EndDid self.old.ring.slots self.old.knows (Op.Wanted Side.Backward)
            (answer_of result) [] self.new.knows }
    {
        let flag = ring
            .table
            .shared
            .load::<plays::WantedBack>(&mut self.seat, FLAG_BACK);
        let is_wanted = flag == 0;
        self.ringer = if is_wanted { Ringer::Hot } else { Ringer::Free };
        is_wanted
    }

    /// Takes the producer's wish back before it is met, so that it is met once: the flag is 1.
    pub fn settle(&mut self, ring: &Ring)
        requires own { self.old.ring ≡ ring.now.id }
        requires condition { Condition (known_end self.old.knows) (Op.Settle Side.Backward) }
        ensures own { self.new.ring ≡ self.old.ring }
        ensures did { EndDid self.old.ring.slots self.old.knows
            (Op.Settle Side.Backward) Answer.Done [] self.new.knows }
    {
        ring.table
            .shared
            .store::<plays::SettleBack>(&mut self.seat, FLAG_BACK, 1);
        self.ringer = Ringer::Ringing;
    }

    /// Notifies the producer: a notification is pending.
    pub fn ring(&mut self, ring: &Ring)
        requires own { self.old.ring ≡ ring.now.id }
        requires condition { Condition (known_end self.old.knows) (Op.Ring Side.Backward) }
        ensures own { self.new.ring ≡ self.old.ring }
        ensures did { EndDid self.old.ring.slots self.old.knows
            (Op.Ring Side.Backward) Answer.Done [] self.new.knows }
    {
        ring.table
            .shared
            .store::<plays::RingBack>(&mut self.seat, PENDING_BACK, 1);
        self.ringer = Ringer::Free;
    }
}
