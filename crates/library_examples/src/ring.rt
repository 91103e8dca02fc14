//! `spsc_queue`: a ring of four places. Its two ends may be worked by two threads; here one thread
//! works both.

ghost use Rattle.std.specs.Prelude.{◌≡◌, true};
ghost use Rattle.cargo_core.specs.declared.item.QueueKind.TheVariants as Kind;
ghost use Rattle.wire_core.specs.declared.names.Ringer.TheVariants as Rung;
ghost use Rattle.wire_core.specs.Ends.{is_busy_or_off, is_free_or_put};

use cargo_core::{Body, Item, Memory, QueueKind};
use spsc_queue::{Consumer, Producer, Ring, finish, open};
use std::alloc::Global;
use std::marker::Brand;

/// Puts a byte where there is room, and notifies the consumer where it wants that: whether it was
/// notified. Which call may come next depends on what the end is about, and the clauses tell that:
/// its waiter looks or is off, its ringer is free, and the ring is its own.
pub fn put_byte(producer: &mut Producer, ring: &Ring, byte: u8) -> bool
    requires own { producer.old.ring ≡ ring.now.id }
    requires calm { is_busy_or_off producer.old.knows.waiter ≡ true }
    requires free { producer.old.knows.ringer ≡ Rung.Free }
    requires kind { producer.old.knows.kind ≡ Kind.Byte }
    ensures own { producer.new.ring ≡ producer.old.ring }
    ensures calm { is_busy_or_off producer.new.knows.waiter ≡ true }
    ensures free { producer.new.knows.ringer ≡ Rung.Free }
    ensures kind { producer.new.knows.kind ≡ Kind.Byte }
{
    if !producer.room(ring) {
        return false;
    }
    producer.put::<Brand>(ring, Item::Byte(byte), Body::Empty);
    if !producer.wanted(ring) {
        return false;
    }
    producer.settle(ring);
    producer.ring(ring);
    true
}

/// Takes the first entry, if there is one.
pub fn take_entry(consumer: &mut Consumer, ring: &Ring) -> Option<Item>
    requires own { consumer.old.ring ≡ ring.now.id }
    requires calm { is_busy_or_off consumer.old.knows.waiter ≡ true }
    requires free { is_free_or_put consumer.old.knows.ringer ≡ true }
    ensures own { consumer.new.ring ≡ consumer.old.ring }
{
    if !consumer.see(ring) {
        return None;
    }
    let (item, _body) = consumer.take(ring);
    Some(item)
}

/// Two bytes are put, the consumer is notified of the first and takes it, and the second is left
/// when both ends are given up.
pub fn show_ring(alloc: Global) -> Result<String, Memory> {
    let (ring, mut producer, mut consumer) = open(alloc, QueueKind::Byte, 4)?;
    let first = put_byte(&mut producer, &ring, 97);
    let second = put_byte(&mut producer, &ring, 98);
    let woken = consumer.wake(&ring);
    let taken = take_entry(&mut consumer, &ring);
    let mut ended = finish(ring, producer, consumer)?;
    let left = ended.next().map(|entry| entry.0);
    let mut text = format!(in alloc; "put 97, the consumer is to be notified: {first}\n")?;
    write!(text, "put 98, the consumer is to be notified: {second}\n")?;
    write!(text, "the consumer finds a notification: {woken}\n")?;
    write!(text, "taken {taken:?}, left {left:?}\n")?;
    Ok(text)
}
