//! A gate that holds actors until all have come.
use cargo_core::Memory;
use sddf_top::Gate;
use std::alloc::Global;
use std::sync::atomic::{AtomicBool, AtomicU64, Ordering};
use std::thread::yield_now;
use wire_core::ActorId;

// How many turns an actor waits at most.
const TURNS: u64 = 10_000_000;

// How many actors a gate knows at most.
const MOST: usize = 64;

/// Holds each actor's first step until so many actors have arrived, and counts those that waited in
/// vain.
#[derive(Drop)]
pub struct Arrivals {
    wanted: u64,
    known: Vec<AtomicBool>,
    arrived: AtomicU64,
    late: AtomicU64,
}

impl Arrivals {
    /// A gate at which nobody has arrived yet.
    pub fn new(alloc: Global, wanted: u64) -> Result<Arrivals, Memory> {
        let mut known = Vec::with_capacity(alloc, MOST)?;
        for _ in 0..MOST {
            known.push(AtomicBool::new(false))?;
        }
        Ok(Arrivals {
            wanted,
            known,
            arrived: AtomicU64::new(0),
            late: AtomicU64::new(0),
        })
    }

    /// How many actors waited in vain.
    pub fn late(&self) -> u64 {
        self.late.load(Ordering::SeqCst)
    }

    // Whether an actor is here for the first time.
    fn is_new(&self, actor: ActorId) -> bool {
        match self.known.get(usize::from(actor.0)) {
            Some(known) => !known.swap(true, Ordering::SeqCst),
            None => false,
        }
    }

    fn are_all_here(&self) -> bool {
        self.arrived.load(Ordering::SeqCst) >= self.wanted
    }
}

impl Gate for Arrivals {
    fn pass(&self, actor: ActorId, _recorded: u64) {
        if !self.is_new(actor) {
            return;
        }
        self.arrived.fetch_add(1, Ordering::SeqCst);
        for _ in 0..TURNS {
            if self.are_all_here() {
                return;
            }
            yield_now();
        }
        if !self.are_all_here() {
            self.late.fetch_add(1, Ordering::SeqCst);
        }
    }
}
