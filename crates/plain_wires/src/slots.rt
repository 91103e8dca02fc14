//! The entries of one queue, in slots that are made once, between two indices of 16 bits.

ghost use Rattle.std.specs.Prelude.{◌≡◌, ◌<◌, ◌≤◌, ◌%◌, not, nat_lt, [], ◌∷◌, ◌++◌, length};
ghost use Rattle.std.specs.Prelude.{option_to_list, IfOk};
ghost use Rattle.cargo_core.specs.Capacities.{IsCapacity};
ghost use Rattle.plain_wires.specs.Contents.{standing};
ghost use Rattle.plain_wires.specs.Pages.{pages_among};

use cargo_core::{Body, Item, Memory, PoolId, slot_of};
use std::alloc::Global;
use std::marker::Model;

/// The slots of one queue, as many as it holds entries at most. `head` is the index of the first
/// entry and `tail` the index behind the last one. Both run freely by 16 bits, and an index lies in
/// the slot of its remainder by the capacity: a capacity is a power of two of at most 32,768, so it
/// divides 65,536, and the slots go round without a break where an index wraps. From `head` to
/// `tail` it is the capacity where the queue is full and 0 where it is empty, modulo 65,536, which
/// are two numbers even of the largest capacity.
#[derive(Drop)]
pub struct Slots {
    slots: Vec<Option<(Item, Body)>>,
    capacity: u16,
    head: u16,
    tail: u16,
}

impl Model for Slots {
    ghost use Rattle.plain_wires.specs.Contents.{Contents, contents_of, IsSlots};

    ghost Value = { Contents };

    ghost view = { contents_of };

    ghost invariant = { IsSlots };
}

// How many buffers of a pool a slot has: one, or none.
fn page_in(pool: PoolId, slot: &Option<(Item, Body)>) -> u32
    ensures pages { result ≡ pages_among pool (option_to_list slot.now) }
    ensures few { result ≤ 1 }
{
    match slot {
        Some((_, Body::Page(page))) if page.pool().0 == pool.0 => 1,
        _ => 0,
    }
}

// How many buffers of a pool lie in so many slots, from that of an index on. There are as many
// slots as a queue holds entries.
fn pages_from(
    pool: PoolId,
    slots: &[Option<(Item, Body)>],
    capacity: u16,
    head: u16,
    count: u16,
) -> u32
    requires sized { IsCapacity capacity }
    requires places { length slots.now ≡ capacity }
    ensures pages { result ≡ pages_among pool (standing slots.now capacity head count) }
    ensures few { result ≤ 65535 }
{
    let mut pages = 0;
    for place in 0..count {
        let index = head.wrapping_add(place);
        pages += page_in(pool, &slots[slot_of(index, capacity)]);
    }
    pages
}

impl Slots {
    /// So many empty slots. This is all the memory that they ever take. Memory is the answer for
    /// want of memory alone.
    pub fn new(alloc: Global, capacity: u16) -> Result<Slots, Memory>
        requires { IsCapacity capacity }
        ensures { IfOk result (λ s. s ≡ record { capacity = capacity; entries = [] }) }
    {
        let mut slots = Vec::with_capacity(alloc, usize::from(capacity))?;
        slots.resize_with(usize::from(capacity), || None)?;
        Ok(Slots {
            slots,
            capacity,
            head: 0,
            tail: 0,
        })
    }

    /// How many entries it holds at most.
    pub fn capacity(&self) -> u16
        ensures { result ≡ self.now.capacity }
    {
        self.capacity
    }

    /// How many entries stand there.
    pub fn len(&self) -> u16
        ensures { result ≡ length self.now.entries }
    {
        self.tail.wrapping_sub(self.head)
    }

    /// Whether none stands there.
    pub fn is_empty(&self) -> bool
        ensures { not result ≡ nat_lt 0 (length self.now.entries) }
    {
        self.tail == self.head
    }

    /// Whether as many stand there as it holds.
    pub fn is_full(&self) -> bool
        ensures { not result ≡ nat_lt (length self.now.entries) self.now.capacity }
    {
        self.tail.wrapping_sub(self.head) == self.capacity
    }

    /// How many buffers of a pool stand there.
    pub fn pages(&self, pool: PoolId) -> u32
        ensures pages { result ≡ pages_among pool self.now.entries }
        ensures few { result ≤ 65535 }
    {
        pages_from(pool, &self.slots, self.capacity, self.head, self.len())
    }

    /// Takes the first entry.
    pub fn pop(&mut self) -> (Item, Body)
        requires { 0 < length self.old.entries }
        ensures first { self.old.entries ≡ result ∷ self.new.entries }
        ensures capacity { self.new.capacity ≡ self.old.capacity }
    {
        let place = slot_of(self.head, self.capacity);
        self.head = self.head.wrapping_add(1);
        self.slots[place].take().unwrap()
    }

    /// Puts an entry behind the others.
    pub fn push(&mut self, entry: (Item, Body))
        requires { length self.old.entries < self.old.capacity }
        ensures entries { self.new.entries ≡ self.old.entries ++ entry ∷ [] }
        ensures capacity { self.new.capacity ≡ self.old.capacity }
    {
        let place = slot_of(self.tail, self.capacity);
        self.tail = self.tail.wrapping_add(1);
        drop(self.slots[place].replace(entry));
    }
}
