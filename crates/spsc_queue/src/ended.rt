//! How a ring comes to its end: both ends are given up, and what was sent, taken and left is known,
//! with both bells.
ghost use Rattle.std.specs.Prelude.{◌≡◌, ◌<◌, ◌≤◌, ◌++◌, ◌%◌, length, drop, nat_lt, slice_get, All};
ghost use Rattle.std.specs.Prelude.{IfOk, List, ℕ, false};
ghost use Rattle.std.specs.Slots.{slots_len, slots_items, IsFull};
ghost use Rattle.cargo_core.specs.Items.{kind_of};
ghost use Rattle.wire_core.specs.Bells.{BellHolds};
ghost use Rattle.spsc_queue.specs.Known.{ended_bell};
ghost use Rattle.spsc_queue.specs.Rule.{forward_bell, backward_bell, flag_of, pending_of};
ghost use Rattle.spsc_queue.specs.Steps.{sent_home};
ghost use Rattle.spsc_queue.specs.Left.{entries_from};

use crate::consumer::Consumer;
use crate::plays::{self, TwoEnds};
use crate::producer::Producer;
use crate::ring::Ring;
use crate::rule::{FLAG, FLAG_BACK, HEAD, PENDING, PENDING_BACK, Slot, TAIL};
use crate::view::View;
use atomic_table::{Badge, Closed};
use cargo_core::{Body, Item, Memory};
use std::alloc::Global;
use std::collections::VecDeque;
use std::marker::Model;
use wire_core::{BellState, Side};

/// What is kept of a ring whose two ends were given up: what each of them knew last, the entries
/// that were sent and not taken, and the two bells.
#[derive(Drop)]
pub struct Ended {
    // The last seat, which knows what both ends knew.
    pub(crate) badge: Badge<View>,
    pub(crate) left: VecDeque<(Item, Body)>,
    pub(crate) forward: BellState,
    pub(crate) backward: BellState,
    // The indices of the two ends.
    pub(crate) sent: u16,
    pub(crate) taken: u16,
}

impl Model for Ended {
    ghost use Rattle.spsc_queue.specs.Known.Ends.{EndedIs};

    ghost Value = { EndedIs };

    ghost use Rattle.spsc_queue.specs.Known.{ended_is, IsEnded};

    ghost view = { ended_is };

    ghost invariant = { IsEnded };
}

impl Ended {
    /// The first of the entries that are left, in the order in which they were sent; None where
    /// none is left.
    pub fn next(&mut self) -> Option<(Item, Body)>
        ensures first { result ≡ slice_get self.old.left 0 }
        ensures rest { self.new ≡ record self.old { left = drop 1 self.old.left } }
    {
        self.left.pop_front()
    }

    /// One of the two bells.
    pub fn bell(&self, side: Side) -> BellState
        ensures { result ≡ ended_bell self.now side }
    {
        match side {
            Side::Forward => self.forward,
            Side::Backward => self.backward,
        }
    }

    /// How many entries were sent, modulo 65,536: the index that the producer kept.
    pub fn sent(&self) -> u16
        ensures { result ≡ length self.now.producer.entries % 65536 }
    {
        self.sent
    }

    /// How many entries were taken, modulo 65,536: the index that the consumer kept.
    pub fn taken(&self) -> u16
        ensures { result ≡ length self.now.consumer.entries % 65536 }
    {
        self.taken
    }
}

// Takes out what lies in the slots, and gives them back.
fn discard(mut closed: Closed<Slot, Global>)
    requires { IsFull closed.slots }
{
    let mut i = 0;
    while i < closed.slot_count() {
        drop(closed.take(i));
        i += 1;
    }
    closed.free();
}

// The entries, from the one at the head on.
fn take_left(
    alloc: Global,
    mut closed: Closed<Slot, Global>,
    head: u16,
    capacity: u16,
) -> Result<VecDeque<(Item, Body)>, Memory>
    requires places { (slots_len closed.slots ≡ capacity) × (0 < capacity) }
    requires full { IsFull closed.slots }
    ensures { IfOk result (λ v. v.items
        ≡ entries_from (slots_items closed.slots) capacity head capacity) }
{
    let places = usize::from(capacity);
    let mut left = match VecDeque::with_capacity(alloc, places) {
        Ok(left) => left,
        Err(refused) => {
            discard(closed);
            return Err(Memory::from(refused));
        }
    };
    for k in 0..places {
        let slot = closed.take((usize::from(head) + k) % places);
        if let Some(entry) = slot {
            left.push_back_reserved(entry);
        }
    }
    closed.free();
    Ok(left)
}

/// Gives up both ends, so that neither can be used again, and takes apart what they shared. The
/// bells are what the two ends know, but on a wild ring, where they are as they were stored. After
/// Memory, the answer for want of memory alone, all three are gone.
pub fn finish(ring: Ring, producer: Producer, consumer: Consumer) -> Result<Ended, Memory>
    requires producer { producer.ring ≡ ring.id }
    requires consumer { consumer.ring ≡ ring.id }
    ensures ends { IfOk result (λ e. (e.capacity ≡ ring.id.slots)
        × (e.producer ≡ sent_home producer.knows) × (e.consumer ≡ sent_home consumer.knows)) }
    ensures rest { IfOk result (λ e. (producer.knows.entries ≡ consumer.knows.entries ++ e.left)
        × (length e.left ≤ ring.id.slots)) }
    ensures times { IfOk result (λ e. (later : List ℕ)
        × (producer.knows.times ≡ consumer.knows.times ++ later)
        × (length later ≡ length e.left)) }
    ensures kinds { IfOk result (λ e. (producer.knows.kind ≡ ring.kind)
        × (consumer.knows.kind ≡ ring.kind)
        × All (λ x. kind_of x.0 ≡ ring.kind) producer.knows.entries) }
    ensures sorts { IfOk result (λ e. (producer.knows.wild ≡ ring.wild)
        × (consumer.knows.wild ≡ ring.wild)) }
    ensures forward { IfOk result (λ e. e.forward
        ≡ forward_bell e.forward.flag e.forward.pending producer.knows consumer.knows) }
    ensures backward { IfOk result (λ e. e.backward
        ≡ backward_bell e.backward.flag e.backward.pending producer.knows consumer.knows) }
    ensures bells { IfOk result (λ e. ring.wild ≡ false
        → BellHolds e.forward (nat_lt 0 (length e.left)) (length producer.knows.entries)
        × BellHolds e.backward (nat_lt (length e.left) ring.id.slots)
        (length consumer.knows.entries)) }
    ensures words { IfOk result (λ e. ring.wild ≡ false
        → (e.forward.flag ≡ flag_of consumer.knows producer.knows)
        × (e.forward.pending ≡ pending_of consumer.knows producer.knows)
        × (e.backward.flag ≡ flag_of producer.knows consumer.knows)
        × (e.backward.pending ≡ pending_of producer.knows consumer.knows)) }
{
    let Ring {
        table,
        capacity,
        alloc,
    } = ring;
    let Producer {
        mut seat,
        tail,
        ahead: _,
        waiter: waiter_back,
        ringer,
        wild: _,
    } = producer;
    let Consumer {
        seat: mut other,
        head,
        ahead: _,
        waiter,
        ringer: ringer_back,
        wild: _,
    } = consumer;
    table.shared.load::<plays::ProducerHome>(&mut seat, TAIL);
    table.shared.load::<plays::ConsumerHome>(&mut other, HEAD);
    table.shared.join_seat::<TwoEnds>(&mut seat, other);
    let memory = table.shared.split_seat::<plays::Memory>(&mut seat);
    let badge = memory.into_badge();
    let closed = table.close_with(seat);
    let flag = closed.word(FLAG) == 1;
    let pending = closed.word(PENDING) == 1;
    let flag_back = closed.word(FLAG_BACK) == 1;
    let pending_back = closed.word(PENDING_BACK) == 1;
    let left = take_left(alloc, closed, head, capacity)?;
    Ok(Ended {
        badge,
        left,
        forward: BellState {
            flag,
            pending,
            waiter,
            ringer,
        },
        backward: BellState {
            flag: flag_back,
            pending: pending_back,
            waiter: waiter_back,
            ringer: ringer_back,
        },
        sent: tail,
        taken: head,
    })
}
