//! One queue: what stands in it, its two bells, and the looks that answered yes and aren't used.

ghost use Rattle.std.specs.Prelude.{◌≡◌, ◌<◌, ◌≤◌, ◌&&◌, not, true, false, length, IfOk, Some};
ghost use Rattle.std.specs.Prelude.{None, [], ◌∷◌, nat_lt, nat_le};
ghost use Rattle.cargo_core.specs.Items.{kind_of};
ghost use Rattle.wire_core.specs.Deeds.{answer_of};
ghost use Rattle.wire_core.specs.Ends.{Condition, Consumer, Producer};
ghost use Rattle.wire_core.specs.Queues.{Queue, queue_after, start_queue, end_of, bell_of};
ghost use Rattle.wire_core.specs.Queues.{with_bell, is_filled, has_room, sees, finds_room, ahead};
ghost use Rattle.cargo_core.specs.Capacities.{IsCapacity};
ghost use Rattle.plain_wires.specs.Adopted.{IsEndedOf, adopted};
ghost use Rattle.plain_wires.specs.Pages.{pages_at};
ghost use Rattle.plain_wires.specs.Pendings.{waiting_actor};

use crate::slots::Slots;
use cargo_core::{Body, Item, Memory, PoolId, QueueKind, Word};
use spsc_queue::Ended;
use std::alloc::Global;
use std::marker::Model;
use wire_core::{ActorId, Answer, BellState, Op, QueueRow, Ringer, Side, Waiter};

// Whether the tail that a consumer reads tells of entries that it hasn't taken.
fn fits_entry(taken: u16, tail: u16, capacity: u16) -> bool
    ensures { result ≡ (nat_lt 0 (ahead taken tail) && nat_le (ahead taken tail) capacity) }
{
    let ahead = tail.wrapping_sub(taken);
    0 < ahead && ahead <= capacity
}

// Whether the head that a producer reads tells of room behind what it put.
fn fits_room(head: u16, sent: u16, capacity: u16) -> bool
    ensures { result ≡ nat_lt (ahead head sent) capacity }
{
    sent.wrapping_sub(head) < capacity
}

/// One queue. `saw` and `free` are the last looks of its two ends, as long as they aren't used.
#[derive(Drop)]
pub struct PlainQueue {
    kind: QueueKind,
    producer: ActorId,
    consumer: ActorId,
    cargo: Slots,
    front: BellState,
    back: BellState,
    saw: bool,
    free: bool,
    // The index words, and what the two ends themselves count; and whether a word was stored.
    head: u16,
    tail: u16,
    taken: u16,
    sent: u16,
    stored: bool,
    // What is kept of the ring that the queue was made of, if any. Its entries were moved out.
    ended: Option<Ended>,
}

impl Model for PlainQueue {
    ghost use Rattle.wire_core.specs.Queues.{Queue};

    ghost Value = { Queue };

    ghost use Rattle.plain_wires.specs.PlainQueues.{queue_of, IsPlainQueue};

    ghost view = { queue_of };

    ghost invariant = { IsPlainQueue };
}

impl PlainQueue {
    /// The queue of a row in its start state, with its room taken.
    pub fn new(alloc: Global, row: &QueueRow) -> Result<PlainQueue, Memory>
        requires { IsCapacity row.now.capacity }
        ensures { IfOk result (λ l. l ≡ start_queue row.now) }
    {
        Ok(PlainQueue {
            kind: row.kind,
            producer: row.producer,
            consumer: row.consumer,
            cargo: Slots::new(alloc, row.capacity as u16)?,
            front: BellState {
                flag: false,
                pending: false,
                waiter: Waiter::Busy,
                ringer: Ringer::Free,
            },
            back: BellState {
                flag: true,
                pending: false,
                waiter: Waiter::Off,
                ringer: Ringer::Free,
            },
            saw: false,
            free: false,
            head: 0,
            tail: 0,
            taken: 0,
            sent: 0,
            stored: false,
            ended: None,
        })
    }

    /// The queue of a row with the entries that an ended ring left, with its two bells and with its
    /// indices. The ended ring is kept. Memory is the answer for want of memory alone.
    pub fn adopt(alloc: Global, row: &QueueRow, mut ended: Ended) -> Result<PlainQueue, Memory>
        requires sized { IsCapacity row.now.capacity }
        requires left { IsEndedOf row.now ended }
        ensures { IfOk result (λ l. l ≡ adopted (row.now, ended)) }
    {
        let mut queue = PlainQueue::new(alloc, row)?;
        while let Some(entry) = ended.next() {
            queue.cargo.push(entry);
        }
        queue.front = ended.bell(Side::Forward);
        queue.back = ended.bell(Side::Backward);
        queue.taken = ended.taken();
        queue.head = queue.taken;
        queue.sent = ended.sent();
        queue.tail = queue.sent;
        queue.ended = Some(ended);
        Ok(queue)
    }

    /// How many entries stand in it.
    pub fn len(&self) -> u32
        ensures { result ≡ length self.now.entries }
    {
        u32::from(self.cargo.len())
    }

    /// How many buffers of a pool stand in it.
    pub fn pages(&self, pool: PoolId) -> u32
        ensures pages { result ≡ pages_at pool self.now }
        ensures few { result ≤ 65535 }
    {
        self.cargo.pages(pool)
    }

    /// The actor that waits on a bell: forward the consumer, backward the producer.
    pub fn waiting_actor(&self, side: Side) -> ActorId
        ensures { result.0 ≡ waiting_actor self.now side }
    {
        match side {
            Side::Forward => self.consumer,
            Side::Backward => self.producer,
        }
    }

    pub fn bell(&self, side: Side) -> BellState
        ensures { result ≡ bell_of self.now.bells side }
    {
        match side {
            Side::Forward => self.front,
            Side::Backward => self.back,
        }
    }

    fn set_bell(&mut self, side: Side, bell: BellState)
        ensures { self.new ≡ record self.old { bells = with_bell self.old.bells side bell } }
    {
        match side {
            Side::Forward => self.front = bell,
            Side::Backward => self.back = bell,
        }
    }

    pub fn see(&mut self) -> bool
        ensures now { result ≡ sees self.old }
        ensures after { self.new ≡ queue_after self.old Op.See (answer_of result) [] }
    {
        let fits = fits_entry(self.taken, self.tail, self.cargo.capacity());
        self.saw = !self.cargo.is_empty() && (!self.stored || fits);
        if !self.saw && self.front.waiter == Waiter::Asked {
            self.front.waiter = Waiter::Clear;
        }
        self.saw
    }

    pub fn room(&mut self) -> bool
        ensures now { result ≡ finds_room self.old }
        ensures after { self.new ≡ queue_after self.old Op.Room (answer_of result) [] }
    {
        let fits = fits_room(self.head, self.sent, self.cargo.capacity());
        self.free = !self.cargo.is_full() && (!self.stored || fits);
        if !self.free && self.back.waiter == Waiter::Asked {
            self.back.waiter = Waiter::Clear;
        }
        self.free
    }

    pub fn take(&mut self) -> (Item, Body)
        requires { Condition (end_of true self.old.kind self.old.bells Consumer) Op.Take }
        ensures filled { is_filled self.old ≡ true }
        ensures kind { kind_of result.0 ≡ self.old.kind }
        ensures first { self.old.entries ≡ result ∷ self.new.entries }
        ensures after { self.new ≡ queue_after self.old Op.Take Answer.Done (result ∷ []) }
    {
        self.saw = false;
        self.back.ringer = Ringer::Put;
        self.taken = self.taken.wrapping_add(1);
        self.head = self.taken;
        self.cargo.pop()
    }

    pub fn put(&mut self, item: Item, body: Body)
        requires may { Condition (end_of true self.old.kind self.old.bells Producer) Op.Put }
        requires kind { kind_of item ≡ self.old.kind }
        ensures room { has_room self.old ≡ true }
        ensures after { self.new ≡ queue_after self.old Op.Put Answer.Done ((item, body) ∷ []) }
    {
        self.free = false;
        self.front.ringer = Ringer::Put;
        self.sent = self.sent.wrapping_add(1);
        self.tail = self.sent;
        self.cargo.push((item, body));
    }

    pub fn ask(&mut self, side: Side)
        ensures { self.new ≡ queue_after self.old (Op.Ask side) Answer.Done [] }
    {
        let bell = self.bell(side);
        self.set_bell(
            side,
            BellState {
                flag: false,
                waiter: Waiter::Asked,
                ..bell
            },
        );
    }

    pub fn waive(&mut self, side: Side)
        ensures { self.new ≡ queue_after self.old (Op.Waive side) Answer.Done [] }
    {
        let bell = self.bell(side);
        self.set_bell(
            side,
            BellState {
                flag: true,
                waiter: Waiter::Off,
                ..bell
            },
        );
    }

    pub fn wake(&mut self, side: Side) -> bool
        ensures now { result ≡ (bell_of self.old.bells side).pending }
        ensures after { self.new ≡ queue_after self.old (Op.Wake side) (answer_of result) [] }
    {
        let bell = self.bell(side);
        if bell.pending {
            self.set_bell(
                side,
                BellState {
                    pending: false,
                    waiter: Waiter::Busy,
                    ..bell
                },
            );
        }
        bell.pending
    }

    pub fn wanted(&mut self, side: Side) -> bool
        ensures now { result ≡ not (bell_of self.old.bells side).flag }
        ensures after { self.new ≡ queue_after self.old (Op.Wanted side) (answer_of result) [] }
    {
        let bell = self.bell(side);
        let ringer = if bell.flag { Ringer::Free } else { Ringer::Hot };
        self.set_bell(side, BellState { ringer, ..bell });
        !bell.flag
    }

    pub fn settle(&mut self, side: Side)
        ensures { self.new ≡ queue_after self.old (Op.Settle side) Answer.Done [] }
    {
        let bell = self.bell(side);
        self.set_bell(
            side,
            BellState {
                flag: true,
                ringer: Ringer::Ringing,
                ..bell
            },
        );
    }

    pub fn ring(&mut self, side: Side)
        ensures { self.new ≡ queue_after self.old (Op.Ring side) Answer.Done [] }
    {
        let bell = self.bell(side);
        self.set_bell(
            side,
            BellState {
                pending: true,
                ringer: Ringer::Free,
                ..bell
            },
        );
    }

    /// Stores a value in a word: an index word holds it modulo 65,536, another modulo 2.
    pub fn store(&mut self, word: Word, value: u64)
        ensures { self.new ≡ queue_after self.old (Op.Store word value) Answer.Done [] }
    {
        let index = (value % 65536) as u16;
        let bit = value % 2 == 1;
        self.stored = true;
        match word {
            Word::Head => self.head = index,
            Word::Tail => self.tail = index,
            Word::Flag => self.front.flag = bit,
            Word::FlagBack => self.back.flag = bit,
            Word::Pending => self.front.pending = bit,
            Word::PendingBack => self.back.pending = bit,
        }
    }
}
