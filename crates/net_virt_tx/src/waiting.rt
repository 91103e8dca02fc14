//! Entries that wait for room, in their order, with the memory for all of them taken at the start.
ghost use Rattle.std.specs.Prelude.{◌≡◌, ◌≤◌, ◌<◌, ◌^◌, [], ◌∷◌, ◌++◌, IfOk, length, None};
ghost use Rattle.std.specs.Option.{option_to_list};
ghost use Rattle.cargo_core.specs.Bodies.{buffers_in, buffers_of};
ghost use Rattle.turn_kit.specs.Hands.{bodies_of};

use cargo_core::{Body, Item, Memory, PoolId};
use std::alloc::Global;
use std::collections::VecDeque;
use std::marker::Model;

/// Entries that wait, the first of them first.
#[derive(Drop)]
pub struct Waiting {
    entries: VecDeque<(Item, Body)>,
}

impl Model for Waiting {
    ghost use Rattle.std.specs.VecDeque.{deque_capacity};
    ghost use Rattle.net_virt_tx.specs.Waitings.{Waits};

    ghost Value = { Waits };

    ghost view = { λ w. record { shown = w.entries.items; places = deque_capacity w.entries } };
}

// How many buffers of a pool a body is.
fn buffers_in(pool: PoolId, body: &Body) -> u32
    ensures many { result ≡ buffers_in pool body.now }
    ensures one { result ≤ 1 }
{
    match body {
        Body::Page(page) if page.pool().0 == pool.0 => 1,
        _ => 0,
    }
}

impl Waiting {
    /// None, with the memory for so many.
    pub fn new(alloc: Global, places: usize) -> Result<Waiting, Memory>
        ensures none { IfOk result (λ w. w.shown ≡ []) }
        ensures places { IfOk result (λ w. places ≤ w.places) }
    {
        let entries = VecDeque::with_capacity(alloc, places)?;
        Ok(Waiting { entries })
    }

    /// One more waits, behind the others.
    pub fn push(&mut self, entry: (Item, Body))
        requires { length self.old.shown < self.old.places }
        ensures shown { self.new.shown ≡ self.old.shown ++ entry ∷ [] }
        ensures places { self.old.places ≤ self.new.places }
    {
        match self.entries.push_back(entry) {
            Ok(()) => (),
            Err(_failed) => unreachable!(),
        }
    }

    /// The first waits no more. None exactly where none waits.
    pub fn pop(&mut self) -> Option<(Item, Body)>
        ensures shown { self.old.shown ≡ option_to_list result ++ self.new.shown }
        ensures none { result ≡ None → self.new.shown ≡ [] }
        ensures places { self.new.places ≡ self.old.places }
    {
        self.entries.pop_front()
    }

    /// How many of them carry a buffer of a pool.
    pub fn held(&self, pool: PoolId) -> u32
        requires { length self.now.shown < 2 ^ 32 }
        ensures held { result ≡ buffers_of pool (bodies_of self.now.shown) }
        ensures few { result ≤ length self.now.shown }
    {
        let mut count = 0;
        for k in 0..self.entries.len() {
            count += buffers_in(pool, &self.entries[k].1);
        }
        count
    }
}
