//! What each kind of step on a ring tells the end that makes it, and how the first seat is split
//! and the last is joined. Each step of a call tells the word that it was on and what was read or
//! stored there, as the step has them, and nothing else may stand in what was walked.
ghost use Rattle.spsc_queue.specs.Steps.{room_done, room_again, put_done, see_done, see_again};
ghost use Rattle.spsc_queue.specs.Steps.{take_done, producer_turned, tail_read, head_read};
ghost use Rattle.spsc_queue.specs.Steps.{entry_guard_read, room_guard_read, producer_passed};
ghost use Rattle.spsc_queue.specs.Steps.{consumer_passed};
ghost use Rattle.spsc_queue.specs.Steps.{consumer_turned, producer_woken, consumer_woken};
ghost use Rattle.spsc_queue.specs.Steps.{producer_settled, consumer_settled, asked, waived};
ghost use Rattle.spsc_queue.specs.Steps.{after_wanted, after_ring, producer_home, consumer_home};
ghost use Rattle.spsc_queue.specs.Steps.{producing_part, consuming_part, whole, memory_of, spent};

use crate::clock::Clock;
use crate::rule::Slot;
use crate::view::View;
use atomic_table::{Join, Play, Split};
use std::marker::PhantomData;

pub(crate) struct Room;

impl Play<Slot, View> for Room {
    ghost then = { room_done };
}

pub(crate) struct RoomAgain;

impl Play<Slot, View> for RoomAgain {
    ghost then = { room_again };
}

// At the time that its caller picks.
pub(crate) struct Put<C> {
    clock: PhantomData<C>,
}

impl<C: Clock> Play<Slot, View> for Put<C> {
    ghost then = { put_done C.time };
}

pub(crate) struct See;

impl Play<Slot, View> for See {
    ghost then = { see_done };
}

pub(crate) struct SeeAgain;

impl Play<Slot, View> for SeeAgain {
    ghost then = { see_again };
}

pub(crate) struct Take;

impl Play<Slot, View> for Take {
    ghost then = { take_done };
}

pub(crate) struct TailRead;

impl Play<Slot, View> for TailRead {
    ghost then = { tail_read };
}

pub(crate) struct EntryGuard;

impl Play<Slot, View> for EntryGuard {
    ghost then = { entry_guard_read };
}

pub(crate) struct HeadRead;

impl Play<Slot, View> for HeadRead {
    ghost then = { head_read };
}

pub(crate) struct RoomGuard;

impl Play<Slot, View> for RoomGuard {
    ghost then = { room_guard_read };
}

pub(crate) struct ProducerPassed;

impl Play<Slot, View> for ProducerPassed {
    ghost then = { producer_passed };
}

pub(crate) struct ConsumerPassed;

impl Play<Slot, View> for ConsumerPassed {
    ghost then = { consumer_passed };
}

pub(crate) struct Ask;

impl Play<Slot, View> for Ask {
    ghost then = { consumer_turned asked };
}

pub(crate) struct Waive;

impl Play<Slot, View> for Waive {
    ghost then = { consumer_turned waived };
}

pub(crate) struct Wake;

impl Play<Slot, View> for Wake {
    ghost then = { consumer_woken };
}

pub(crate) struct Wanted;

impl Play<Slot, View> for Wanted {
    ghost then = { producer_turned after_wanted };
}

pub(crate) struct Settle;

impl Play<Slot, View> for Settle {
    ghost then = { producer_settled };
}

pub(crate) struct Ring;

impl Play<Slot, View> for Ring {
    ghost then = { producer_turned after_ring };
}

pub(crate) struct AskBack;

impl Play<Slot, View> for AskBack {
    ghost then = { producer_turned asked };
}

pub(crate) struct WaiveBack;

impl Play<Slot, View> for WaiveBack {
    ghost then = { producer_turned waived };
}

pub(crate) struct WakeBack;

impl Play<Slot, View> for WakeBack {
    ghost then = { producer_woken };
}

pub(crate) struct WantedBack;

impl Play<Slot, View> for WantedBack {
    ghost then = { consumer_turned after_wanted };
}

pub(crate) struct SettleBack;

impl Play<Slot, View> for SettleBack {
    ghost then = { consumer_settled };
}

pub(crate) struct RingBack;

impl Play<Slot, View> for RingBack {
    ghost then = { consumer_turned after_ring };
}

pub(crate) struct ProducerHome;

impl Play<Slot, View> for ProducerHome {
    ghost then = { producer_home };
}

pub(crate) struct ConsumerHome;

impl Play<Slot, View> for ConsumerHome {
    ghost then = { consumer_home };
}

pub(crate) struct TwoEnds;

impl Split<View> for TwoEnds {
    ghost left = { producing_part };

    ghost right = { consuming_part };
}

impl Join<View> for TwoEnds {
    ghost both = { whole };

    ghost spent = { spent };
}

pub(crate) struct Memory;

impl Split<View> for Memory {
    ghost left = { λ v. v };

    ghost right = { memory_of };
}
