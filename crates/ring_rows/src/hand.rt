//! One end of a ring of bytes, worked by a caller that asks for no notification.
ghost use Rattle.std.specs.Prelude.{◌≡◌, ◌≤◌, ◌^◌, ◌++◌, true, IfOk};
ghost use Rattle.cargo_core.specs.declared.item.QueueKind.TheVariants as Kind;
ghost use Rattle.wire_core.specs.Ends.{is_busy_or_off, is_free_or_put};
ghost use Rattle.spsc_queue.specs.Rule.{first_producer, first_consumer};

use crate::pausing::pause;
use cargo_core::{Body, Item, Memory, QueueKind};
use spsc_queue::{Consumer, Ended, Producer, Ring, finish, open};
use std::alloc::Global;
use std::marker::Brand;

/// A ring of bytes in its start state, whose capacity is 2 to a power.
pub fn byte_ring(alloc: Global, power: u32) -> Result<(Ring, Producer, Consumer), Memory>
    requires { power ≤ 15 }
    ensures ring { IfOk result (λ r. (r.0.kind ≡ Kind.Byte) × (r.0.id.slots ≡ 2 ^ power)) }
    ensures producer { IfOk result (λ r. r.1
        ≡ record { ring = r.0.id; knows = first_producer Kind.Byte }) }
    ensures consumer { IfOk result (λ r. r.2
        ≡ record { ring = r.0.id; knows = first_consumer Kind.Byte }) }
{
    let capacity = 1u32 << power;
    open(alloc, QueueKind::Byte, capacity)
}

/// A look, and a put where there is room: whether the byte was put.
pub fn offer(producer: &mut Producer, ring: &Ring, byte: u8) -> bool
    requires own { producer.old.ring ≡ ring.now.id }
    requires calm { is_busy_or_off producer.old.knows.waiter ≡ true }
    requires free { is_free_or_put producer.old.knows.ringer ≡ true }
    requires kind { producer.old.knows.kind ≡ Kind.Byte }
    ensures own { producer.new.ring ≡ producer.old.ring }
    ensures calm { is_busy_or_off producer.new.knows.waiter ≡ true }
    ensures free { is_free_or_put producer.new.knows.ringer ≡ true }
    ensures kind { producer.new.knows.kind ≡ producer.old.knows.kind }
{
    if !producer.room(ring) {
        return false;
    }
    producer.put::<Brand>(ring, Item::Byte(byte), Body::Empty);
    true
}

/// A look, and a take where there is an entry: what was taken.
pub fn poll(consumer: &mut Consumer, ring: &Ring) -> Option<Item>
    requires own { consumer.old.ring ≡ ring.now.id }
    requires calm { is_busy_or_off consumer.old.knows.waiter ≡ true }
    requires free { is_free_or_put consumer.old.knows.ringer ≡ true }
    ensures own { consumer.new.ring ≡ consumer.old.ring }
    ensures calm { is_busy_or_off consumer.new.knows.waiter ≡ true }
    ensures free { is_free_or_put consumer.new.knows.ringer ≡ true }
{
    if !consumer.see(ring) {
        return None;
    }
    let (item, _body) = consumer.take(ring);
    Some(item)
}

/// Puts so many bytes, the number of each modulo 251, and looks again after each no, up to so many
/// looks in all, with so many pauses of the processor behind a look in vain: how many were put.
pub fn send(producer: &mut Producer, ring: &Ring, count: u32, looks: u64, pauses: u32) -> u32
    requires own { producer.old.ring ≡ ring.now.id }
    requires calm { is_busy_or_off producer.old.knows.waiter ≡ true }
    requires free { is_free_or_put producer.old.knows.ringer ≡ true }
    requires kind { producer.old.knows.kind ≡ Kind.Byte }
    ensures own { producer.new.ring ≡ producer.old.ring }
    ensures calm { is_busy_or_off producer.new.knows.waiter ≡ true }
    ensures free { is_free_or_put producer.new.knows.ringer ≡ true }
    ensures kind { producer.new.knows.kind ≡ producer.old.knows.kind }
    ensures most { result ≤ count }
{
    let mut sent = 0;
    for _look in 0..looks {
        if sent >= count {
            break;
        }
        if offer(producer, ring, (sent % 251) as u8) {
            sent += 1;
        } else {
            pause(pauses);
        }
    }
    sent
}

/// Takes so many of those bytes, and looks again after each no, up to so many looks in all: how
/// many came in order.
pub fn take(consumer: &mut Consumer, ring: &Ring, count: u32, looks: u64, pauses: u32) -> u32
    requires own { consumer.old.ring ≡ ring.now.id }
    requires calm { is_busy_or_off consumer.old.knows.waiter ≡ true }
    requires free { is_free_or_put consumer.old.knows.ringer ≡ true }
    ensures own { consumer.new.ring ≡ consumer.old.ring }
    ensures calm { is_busy_or_off consumer.new.knows.waiter ≡ true }
    ensures free { is_free_or_put consumer.new.knows.ringer ≡ true }
    ensures most { result ≤ count }
{
    let mut taken = 0;
    for _look in 0..looks {
        if taken >= count {
            break;
        }
        if let Some(item) = poll(consumer, ring) {
            if item != Item::Byte((taken % 251) as u8) {
                break;
            }
            taken += 1;
        } else {
            pause(pauses);
        }
    }
    taken
}

/// Gives up both ends.
pub fn give_up(ring: Ring, producer: Producer, consumer: Consumer) -> Result<Ended, Memory>
    requires producer { producer.ring ≡ ring.id }
    requires consumer { consumer.ring ≡ ring.id }
    ensures { IfOk result (λ e. producer.knows.entries ≡ consumer.knows.entries ++ e.left) }
{
    let ended = finish(ring, producer, consumer)?;
    Ok(ended)
}
