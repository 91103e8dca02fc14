//! All queues of a system, and how many notifications are pending for each actor.

ghost use Rattle.std.specs.Prelude.{◌≡◌, ◌<◌, ◌≤◌, ◌^◌, ◌+◌, length, map, All, IfOk, IfSome, OnOk};
ghost use Rattle.std.specs.Prelude.{slice_get, slice_index_or, slice_set, Some, None, []};
ghost use Rattle.std.specs.List.{AllZip};
ghost use Rattle.wire_core.specs.Bells.{bit};
ghost use Rattle.wire_core.specs.Sizes.{AreSized};
ghost use Rattle.wire_core.specs.declared.names.Answer.TheVariants.{Done};
ghost use Rattle.wire_core.specs.Queues.{Happens, bell_of, queue_at, end_at, starts, is_pending};
ghost use Rattle.wire_core.specs.Queues.{queue_after};
ghost use Rattle.plain_wires.specs.Adopted.{IsEndedOf, all_adopted};
ghost use Rattle.plain_wires.specs.Pages.{pages_in};
ghost use Rattle.plain_wires.specs.Pendings.{IsAmong, IsCounted, waiting_actor, pending_side};
ghost use Rattle.plain_wires.specs.Wildness.{stays};

use crate::queue::PlainQueue;
use cargo_core::{Body, Item, Memory, PoolId, Word};
use spsc_queue::Ended;
use std::alloc::Global;
use std::marker::Model;
use wire_core::{ActorId, BellState, Op, QueueId, QueueRow, Side, WildWires, Wires};

/// All queues, each with what stands in it, its two bells and its index words: contracts see the
/// list of them in full. Each of the ten calls takes constant time and no memory, is the next event
/// of the queue law, the bell law and the discipline on its queue, and changes no other; so is a
/// store, which may come on each queue. After it the looks there heed the index words too.
#[derive(Drop)]
pub struct World {
    queues: Vec<PlainQueue>,
    // For each actor, how many pending words of its waiters are 1.
    pending: Vec<u64>,
}

impl Model for World {
    ghost use Rattle.std.specs.Prelude.{List};
    ghost use Rattle.wire_core.specs.Queues.{Queue};

    ghost Value = { List Queue };

    ghost use Rattle.plain_wires.specs.Pendings.{IsCounted};

    ghost view = { λ w. w.queues.items };

    ghost invariant = { λ w. IsCounted w.pending.items w.queues.items };
}

// One more than the greatest number of an actor at a queue's end.
fn actors_of(rows: &[QueueRow]) -> usize
    ensures { All (λ r. (r.producer.0 < result) × (r.consumer.0 < result)) rows.now }
{
    let mut count = 0;
    for row in rows {
        let last = row.producer.0.max(row.consumer.0) as usize;
        if count <= last {
            count = last + 1;
        }
    }
    count
}

// No pending word is 1, of any actor at the queues' ends.
#[tactic(auto, using(crate::proofs::Counts::at_start))]
fn none_pending(alloc: Global, rows: &[QueueRow]) -> Result<Vec<u64>, Memory>
    ensures { IfOk result (λ counts. IsCounted counts.items (starts rows.now)) }
{
    Ok(vec![in alloc; 0; actors_of(rows)]?)
}

// One more for the actor that waits on a bell, where a notification is pending there.
fn count_bell(counts: &mut [u64], queue: &PlainQueue, side: Side)
    requires known { waiting_actor queue.now side < length counts.old }
    requires few { slice_index_or counts.old (waiting_actor queue.now side) 0 < 2 ^ 32 }
    ensures { counts.new ≡ slice_set counts.old (waiting_actor queue.now side)
        (slice_index_or counts.old (waiting_actor queue.now side) 0
        + bit (bell_of queue.now.bells side).pending) }
{
    let actor = queue.waiting_actor(side);
    counts[actor.0 as usize] += u64::from(queue.bell(side).pending);
}

// Counts for each actor how many pending words of its waiters are 1, from none on.
fn count_bells(counts: &mut [u64], queues: &[PlainQueue])
    requires few { length queues.now ≤ 65536 }
    requires known { All (IsAmong (length counts.old)) queues.now }
    requires none { IsCounted counts.old [] }
    ensures { IsCounted counts.new queues.now }
{
    for queue in queues {
        count_bell(counts, queue, Side::Forward);
        count_bell(counts, queue, Side::Backward);
    }
}

// How many buffers of a pool stand in these queues.
fn pages_in(pool: PoolId, queues: &[PlainQueue]) -> u32
    requires { length queues.now ≤ 65536 }
    ensures { result ≡ pages_in pool queues.now }
{
    let mut count = 0;
    for queue in queues {
        count += queue.pages(pool);
    }
    count
}

impl World {
    /// Every queue in its start state, with its room taken. Memory is the answer for want of memory
    /// alone.
    pub fn new(alloc: Global, rows: &[QueueRow]) -> Result<World, Memory>
        requires { AreSized rows.now }
        ensures { IfOk result (λ w. w ≡ starts rows.now) }
    {
        let mut queues = Vec::with_capacity(alloc, rows.len())?;
        for row in rows {
            queues.push(PlainQueue::new(alloc, row)?)?;
        }
        Ok(World {
            queues,
            pending: none_pending(alloc, rows)?,
        })
    }

    /// Every queue with the entries and the bells of a ring that came to its end. The ended rings
    /// stand in the order of the rows, each of its row's kind and capacity; they are kept, with
    /// their entries moved out. Memory is the answer for want of memory alone.
    pub fn adopt(alloc: Global, rows: &[QueueRow], ended: Vec<Ended>) -> Result<World, Memory>
        requires sized { AreSized rows.now }
        requires ended { AllZip IsEndedOf rows.now ended.items }
        ensures { IfOk result (λ w. w ≡ all_adopted rows.now ended.items) }
    {
        let mut queues = Vec::with_capacity(alloc, rows.len())?;
        for ring in ended {
            let row = &rows[queues.len()];
            queues.push(PlainQueue::adopt(alloc, row, ring)?)?;
        }
        let mut pending = vec![in alloc; 0; actors_of(rows)]?;
        count_bells(&mut pending, &queues);
        Ok(World { queues, pending })
    }

    /// How many entries stand in a queue.
    pub fn len(&self, q: QueueId) -> u32
        requires { q.0 < length self.now }
        ensures { result ≡ length (queue_at self.now q.0).entries }
    {
        let queue = &self.queues[q.0 as usize];
        queue.len()
    }

    /// How many buffers of a pool stand in the queues, each as the body of an entry. The queues are
    /// counted one by one, and are at most 65,536, as a `QueueId` can tell.
    pub fn pages(&self, pool: PoolId) -> u32
        requires { length self.now ≤ 65536 }
        ensures { result ≡ pages_in pool self.now }
    {
        pages_in(pool, &self.queues)
    }

    /// Whether a pending word of one of the actor's waiters is 1: forward where it is the queue's
    /// consumer, backward where it is its producer.
    pub fn is_pending(&self, actor: ActorId) -> bool
        ensures { result ≡ is_pending actor.0 self.now }
    {
        match self.pending.get(actor.0 as usize) {
            Some(count) => *count > 0,
            None => false,
        }
    }

    /// A bell of a queue.
    pub fn bell(&self, q: QueueId, side: Side) -> BellState
        requires { q.0 < length self.now }
        ensures { result ≡ bell_of (queue_at self.now q.0).bells side }
    {
        let queue = &self.queues[q.0 as usize];
        queue.bell(side)
    }
}

impl Wires for World {
    ghost ends = { end_at };

    ghost did = { λ old d new. Happens old d new };

    fn see(&mut self, q: QueueId) -> bool {
        let queue = &mut self.queues[q.0 as usize];
        queue.see()
    }

    fn room(&mut self, q: QueueId) -> bool {
        let queue = &mut self.queues[q.0 as usize];
        queue.room()
    }

    fn take(&mut self, q: QueueId) -> (Item, Body) {
        let queue = &mut self.queues[q.0 as usize];
        queue.take()
    }

    fn put(&mut self, q: QueueId, item: Item, body: Body) {
        let queue = &mut self.queues[q.0 as usize];
        queue.put(item, body);
    }

    fn ask(&mut self, q: QueueId, side: Side) {
        let queue = &mut self.queues[q.0 as usize];
        queue.ask(side);
    }

    fn waive(&mut self, q: QueueId, side: Side) {
        let queue = &mut self.queues[q.0 as usize];
        queue.waive(side);
    }

    fn wake(&mut self, q: QueueId, side: Side) -> bool {
        let queue = &mut self.queues[q.0 as usize];
        let actor = queue.waiting_actor(side);
        let woken = queue.wake(side);
        if woken {
            self.pending[actor.0 as usize] -= 1;
        }
        woken
    }

    fn wanted(&mut self, q: QueueId, side: Side) -> bool {
        let queue = &mut self.queues[q.0 as usize];
        queue.wanted(side)
    }

    fn settle(&mut self, q: QueueId, side: Side) {
        let queue = &mut self.queues[q.0 as usize];
        queue.settle(side);
    }

    fn ring(&mut self, q: QueueId, side: Side) {
        let queue = &mut self.queues[q.0 as usize];
        let actor = queue.waiting_actor(side);
        let first = !queue.bell(side).pending;
        queue.ring(side);
        if first {
            self.pending[actor.0 as usize] += 1;
        }
    }
}

// One where it is so, and else none.
fn bit_of(yes: bool) -> u64
    ensures bit { result ≡ bit yes }
    ensures few { result ≤ 1 }
{
    u64::from(yes)
}

// The bell of whose pending word a word is, if it is one.
fn pending_side(word: Word) -> Option<Side>
    ensures { result ≡ pending_side word }
{
    match word {
        Word::Pending => Some(Side::Forward),
        Word::PendingBack => Some(Side::Backward),
        _ => None,
    }
}

impl World {
    // Stores a value in a pending word, which is counted for the actor that waits there.
    fn store_pending(&mut self, q: QueueId, side: Side, word: Word, value: u64)
        requires there { q.0 < length self.old }
        requires word { pending_side word ≡ Some side }
        ensures { self.new ≡ slice_set self.old q.0
            (queue_after (queue_at self.old q.0) (Op.Store word value) Done []) }
    {
        let queue = &mut self.queues[q.0 as usize];
        let actor = queue.waiting_actor(side);
        let was = queue.bell(side).pending;
        queue.store(word, value);
        let now = value % 2 == 1;
        let count = self.pending[actor.0 as usize] + bit_of(now);
        self.pending[actor.0 as usize] = count - bit_of(was);
    }

    // Stores a value in another word.
    fn store_plain(&mut self, q: QueueId, word: Word, value: u64)
        requires there { q.0 < length self.old }
        requires word { pending_side word ≡ None }
        ensures { self.new ≡ slice_set self.old q.0
            (queue_after (queue_at self.old q.0) (Op.Store word value) Done []) }
    {
        let queue = &mut self.queues[q.0 as usize];
        queue.store(word, value);
    }
}

impl WildWires for World {
    ghost wild = { λ w n. n < length w };

    fn store(&mut self, q: QueueId, word: Word, value: u64) {
        match pending_side(word) {
            Some(side) => self.store_pending(q, side, word, value),
            None => self.store_plain(q, word, value),
        }
    }

    ghost stays = { stays };
}
