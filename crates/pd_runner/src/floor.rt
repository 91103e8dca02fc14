//! Who waits, and when all do. No contract speaks of it: whatever it answers, what an actor does is
//! lawful.
use cargo_core::Memory;
use crossbeam_utils::sync::{Parker, Unparker};
use std::alloc::Global;
use std::sync::Wait;
use std::sync::atomic::{AtomicBool, AtomicU64, AtomicUsize, Ordering};
use wire_core::{ActorId, Event, Op, QueueRow, Side};

// What a desk says of its thread: that it is at work, that it was rung since it last began a round
// of its ends, or that it counts as idle.
const BUSY: u64 = 0;

const RUNG: u64 = 1;

const IDLE: u64 = 2;

// Where the thread of an actor waits.
#[derive(Drop)]
struct Desk {
    unparker: Unparker,
    state: AtomicU64,
    unmanned: AtomicBool,
}

// The actors at the two ends of a queue.
#[derive(Drop)]
struct Pair {
    producer: ActorId,
    consumer: ActorId,
}

/// The desks of all threads, how many of them are idle, and whether the run is over.
#[derive(Drop)]
pub(crate) struct Floor {
    pairs: Vec<Pair>,
    desks: Vec<Desk>,
    idle: AtomicUsize,
    over: AtomicBool,
}

impl Floor {
    /// A desk for each parker; that of the first actor stands last.
    pub(crate) fn new(
        alloc: Global,
        rows: &[QueueRow],
        parkers: &[Parker],
    ) -> Result<Floor, Memory> {
        let mut pairs = Vec::new(alloc);
        for row in rows {
            pairs.push(Pair {
                producer: row.producer,
                consumer: row.consumer,
            })?;
        }
        let mut desks = Vec::new(alloc);
        for parker in parkers.iter().rev() {
            desks.push(Desk {
                unparker: parker.unparker().clone()?,
                state: AtomicU64::new(BUSY),
                unmanned: AtomicBool::new(false),
            })?;
        }
        Ok(Floor {
            pairs,
            desks,
            idle: AtomicUsize::new(0),
            over: AtomicBool::new(false),
        })
    }

    /// Whether the threads are to end.
    pub(crate) fn is_over(&self) -> bool {
        self.over.load(Ordering::SeqCst)
    }

    /// Ends the threads, those that wait too.
    pub(crate) fn end(&self) {
        self.over.store(true, Ordering::SeqCst);
        for desk in &self.desks {
            desk.unparker.unpark();
        }
    }

    // One more is idle. Where all are, the run is over.
    fn count_idle(&self) {
        let idle = self.idle.fetch_add(1, Ordering::SeqCst).wrapping_add(1);
        if idle == self.desks.len() {
            self.end();
        }
    }

    // The desk's thread is no longer idle, if it was. The count is lowered first, so that it is
    // never above the number of desks that say IDLE.
    fn rouse(&self, desk: &Desk, state: u64) {
        self.idle.fetch_sub(1, Ordering::SeqCst);
        if desk.state.swap(state, Ordering::SeqCst) != IDLE {
            self.idle.fetch_add(1, Ordering::SeqCst);
        }
    }

    /// An actor's thread begins a round of its ends: a ring from now on is noticed when the round
    /// has ended.
    pub(crate) fn begin_round(&self, me: u16) {
        if let Some(desk) = self.desks.get(usize::from(me)) {
            desk.state.store(BUSY, Ordering::SeqCst);
        }
    }

    /// No thread steps this actor, since none could be started or its own ended: it counts as idle.
    pub(crate) fn leave_unmanned(&self, me: u16) {
        if let Some(desk) = self.desks.get(usize::from(me)) {
            desk.unmanned.store(true, Ordering::SeqCst);
        }
        self.count_idle();
    }

    /// Whether no thread steps this actor.
    pub(crate) fn is_unmanned(&self, me: u16) -> bool {
        match self.desks.get(usize::from(me)) {
            Some(desk) => desk.unmanned.load(Ordering::SeqCst),
            None => true,
        }
    }

    /// After a round in which no notification was pending: waits until one of the actor's queues is
    /// rung or the threads end, unless one was rung during the round.
    pub(crate) fn rest<R: Wait>(&self, rt: &R, me: u16, parker: &Parker) {
        let Some(desk) = self.desks.get(usize::from(me)) else {
            return;
        };
        let state = &desk.state;
        if state
            .compare_exchange(BUSY, IDLE, Ordering::SeqCst, Ordering::SeqCst)
            .is_err()
        {
            return;
        }
        self.count_idle();
        parker.park(rt);
        self.rouse(desk, BUSY);
    }

    /// After a ring, wakes the thread of the actor at the other end.
    pub(crate) fn note(&self, event: &Event) {
        let Op::Ring(side) = event.op else {
            return;
        };
        let Some(pair) = self.pairs.get(usize::from(event.queue.0)) else {
            return;
        };
        let actor = match side {
            Side::Forward => pair.consumer,
            Side::Backward => pair.producer,
        };
        if let Some(desk) = self.desks.get(usize::from(actor.0)) {
            self.rouse(desk, RUNG);
            desk.unparker.unpark();
        }
    }
}
