//! Buffers that came back from the driver and wait for room at their client.
ghost use Rattle.std.specs.Prelude.{◌≡◌, ◌≤◌, ◌<◌, ◌^◌, [], ◌∷◌, ◌++◌, None, IfOk, length};
ghost use Rattle.cargo_core.specs.Bodies.{buffers_of};
ghost use Rattle.turn_kit.specs.Hands.{bodies_of};
ghost use Rattle.net_virt_tx.specs.Queued.{returns_list, IsReady};

use crate::Waiting;
use cargo_core::{Body, Item, Memory, PoolId};
use std::alloc::Global;
use turn_kit::count_held;

/// Entries that wait: `next` is the first of them, and `later` has the others.
#[derive(Drop)]
pub struct Returns {
    pub next: Option<(Item, Body)>,
    pub later: Waiting,
}

impl Returns {
    /// None, with the memory for so many.
    pub fn new(alloc: Global, places: usize) -> Result<Returns, Memory>
        ensures none { IfOk result (λ r. returns_list r ≡ []) }
        ensures ready { IfOk result (λ r. IsReady r) }
        ensures places { IfOk result (λ r. places ≤ r.later.places) }
    {
        let later = Waiting::new(alloc, places)?;
        Ok(Returns { next: None, later })
    }

    /// One more waits, behind the others.
    pub fn push(&mut self, entry: (Item, Body))
        requires ready { IsReady self.old }
        requires room { length (returns_list self.old) < self.old.later.places }
        ensures ready { IsReady self.new }
        ensures list { returns_list self.new ≡ returns_list self.old ++ entry ∷ [] }
        ensures places { self.old.later.places ≤ self.new.later.places }
    {
        if self.next.is_none() {
            self.next = Some(entry);
        } else {
            self.later.push(entry);
        }
    }

    /// The next one is made ready, where there is one.
    pub fn refill(&mut self)
        requires { self.old.next ≡ None }
        ensures ready { IsReady self.new }
        ensures list { returns_list self.new ≡ returns_list self.old }
        ensures places { self.new.later.places ≡ self.old.later.places }
    {
        self.next = self.later.pop();
    }

    /// How many of them carry a buffer of a pool.
    pub fn held(&self, pool: PoolId) -> u32
        requires { length (returns_list self.now) < 2 ^ 32 }
        ensures held { result ≡ buffers_of pool (bodies_of (returns_list self.now)) }
        ensures few { result ≤ length (returns_list self.now) }
    {
        count_held(pool, &self.next) + self.later.held(pool)
    }
}
