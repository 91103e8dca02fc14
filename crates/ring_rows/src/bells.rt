//! The same ends, worked in the whole discipline: an end that can't go on asks for a notification,
//! looks once more, and then takes notifications by looks alone; an end that moved an entry
//! notifies where that is wanted.
ghost use Rattle.std.specs.Prelude.{◌≡◌, ◌≤◌, true, is_some, IfSome};
ghost use Rattle.cargo_core.specs.declared.item.QueueKind.TheVariants as Kind;
ghost use Rattle.wire_core.specs.declared.names.Ringer.TheVariants as Rung;
ghost use Rattle.wire_core.specs.Ends.{is_busy_or_off};

use crate::pausing::pause;
use cargo_core::{Body, Item};
use spsc_queue::{Consumer, Producer, Ring};
use std::marker::Brand;

/// Notifies the consumer where it wants that; whether it did.
pub fn notify_consumer(producer: &mut Producer, ring: &Ring) -> bool
    requires own { producer.old.ring ≡ ring.now.id }
    requires put { producer.old.knows.ringer ≡ Rung.Put }
    ensures own { producer.new.ring ≡ producer.old.ring }
    ensures waiter { producer.new.knows.waiter ≡ producer.old.knows.waiter }
    ensures free { producer.new.knows.ringer ≡ Rung.Free }
    ensures kind { producer.new.knows.kind ≡ producer.old.knows.kind }
{
    if !producer.wanted(ring) {
        return false;
    }
    producer.settle(ring);
    producer.ring(ring);
    true
}

// Whether there is room, at a look or behind a notification; None where none came within so many
// looks.
fn await_room(producer: &mut Producer, ring: &Ring, looks: u64, pauses: u32) -> Option<bool>
    requires own { producer.old.ring ≡ ring.now.id }
    requires calm { is_busy_or_off producer.old.knows.waiter ≡ true }
    ensures own { producer.new.ring ≡ producer.old.ring }
    ensures calm { IfSome result (λ _. is_busy_or_off producer.new.knows.waiter ≡ true) }
    ensures looked { IfSome result (λ b. b ≡ true → is_some producer.new.knows.grant ≡ true) }
    ensures ringer { producer.new.knows.ringer ≡ producer.old.knows.ringer }
    ensures kind { producer.new.knows.kind ≡ producer.old.knows.kind }
{
    if producer.room(ring) {
        return Some(true);
    }
    producer.ask(ring);
    if producer.room(ring) {
        producer.waive(ring);
        return Some(true);
    }
    for _look in 0..looks {
        if producer.wake(ring) {
            return Some(producer.room(ring));
        }
        pause(pauses);
    }
    None
}

/// A look, and where there is room a put, of which the consumer is notified if it wants that:
/// whether the byte was put.
pub fn give(producer: &mut Producer, ring: &Ring, byte: u8) -> bool
    requires own { producer.old.ring ≡ ring.now.id }
    requires calm { is_busy_or_off producer.old.knows.waiter ≡ true }
    requires free { producer.old.knows.ringer ≡ Rung.Free }
    requires kind { producer.old.knows.kind ≡ Kind.Byte }
    ensures own { producer.new.ring ≡ producer.old.ring }
    ensures calm { is_busy_or_off producer.new.knows.waiter ≡ true }
    ensures free { producer.new.knows.ringer ≡ Rung.Free }
    ensures kind { producer.new.knows.kind ≡ producer.old.knows.kind }
{
    if !producer.room(ring) {
        return false;
    }
    producer.put::<Brand>(ring, Item::Byte(byte), Body::Empty);
    notify_consumer(producer, ring);
    true
}

/// Puts so many bytes, the number of each modulo 251, and gives up after so many looks in vain: how
/// many were put.
pub fn send_by_bells(
    producer: &mut Producer,
    ring: &Ring,
    count: u32,
    looks: u64,
    pauses: u32,
) -> u32
    requires own { producer.old.ring ≡ ring.now.id }
    requires calm { is_busy_or_off producer.old.knows.waiter ≡ true }
    requires free { producer.old.knows.ringer ≡ Rung.Free }
    requires kind { producer.old.knows.kind ≡ Kind.Byte }
    ensures own { producer.new.ring ≡ producer.old.ring }
    ensures most { result ≤ count }
{
    let mut sent = 0;
    for _round in 0..looks {
        if sent >= count {
            break;
        }
        match await_room(producer, ring, looks, pauses) {
            Some(true) => {
                producer.put::<Brand>(ring, Item::Byte((sent % 251) as u8), Body::Empty);
                notify_consumer(producer, ring);
                sent += 1;
            }
            Some(false) => {}
            None => break,
        }
    }
    sent
}

/// Notifies the producer where it wants that; whether it did.
pub fn notify_producer(consumer: &mut Consumer, ring: &Ring) -> bool
    requires own { consumer.old.ring ≡ ring.now.id }
    requires put { consumer.old.knows.ringer ≡ Rung.Put }
    ensures own { consumer.new.ring ≡ consumer.old.ring }
    ensures waiter { consumer.new.knows.waiter ≡ consumer.old.knows.waiter }
    ensures free { consumer.new.knows.ringer ≡ Rung.Free }
{
    if !consumer.wanted(ring) {
        return false;
    }
    consumer.settle(ring);
    consumer.ring(ring);
    true
}

// Whether an entry stands there, at a look or behind a notification; None where none came within so
// many looks.
fn await_entry(consumer: &mut Consumer, ring: &Ring, looks: u64, pauses: u32) -> Option<bool>
    requires own { consumer.old.ring ≡ ring.now.id }
    requires calm { is_busy_or_off consumer.old.knows.waiter ≡ true }
    ensures own { consumer.new.ring ≡ consumer.old.ring }
    ensures calm { IfSome result (λ _. is_busy_or_off consumer.new.knows.waiter ≡ true) }
    ensures looked { IfSome result (λ b. b ≡ true → is_some consumer.new.knows.grant ≡ true) }
    ensures ringer { consumer.new.knows.ringer ≡ consumer.old.knows.ringer }
{
    if consumer.see(ring) {
        return Some(true);
    }
    consumer.ask(ring);
    if consumer.see(ring) {
        consumer.waive(ring);
        return Some(true);
    }
    for _look in 0..looks {
        if consumer.wake(ring) {
            return Some(consumer.see(ring));
        }
        pause(pauses);
    }
    None
}

/// A look, and where an entry stands there a take, of which the producer is notified if it wants
/// that: what was taken.
pub fn get(consumer: &mut Consumer, ring: &Ring) -> Option<Item>
    requires own { consumer.old.ring ≡ ring.now.id }
    requires calm { is_busy_or_off consumer.old.knows.waiter ≡ true }
    requires free { consumer.old.knows.ringer ≡ Rung.Free }
    ensures own { consumer.new.ring ≡ consumer.old.ring }
    ensures calm { is_busy_or_off consumer.new.knows.waiter ≡ true }
    ensures free { consumer.new.knows.ringer ≡ Rung.Free }
{
    if !consumer.see(ring) {
        return None;
    }
    let (item, _body) = consumer.take(ring);
    notify_producer(consumer, ring);
    Some(item)
}

/// Takes so many of those bytes, and gives up after so many looks in vain: how many came in order.
pub fn take_by_bells(
    consumer: &mut Consumer,
    ring: &Ring,
    count: u32,
    looks: u64,
    pauses: u32,
) -> u32
    requires own { consumer.old.ring ≡ ring.now.id }
    requires calm { is_busy_or_off consumer.old.knows.waiter ≡ true }
    requires free { consumer.old.knows.ringer ≡ Rung.Free }
    ensures own { consumer.new.ring ≡ consumer.old.ring }
    ensures most { result ≤ count }
{
    let mut taken = 0;
    for _round in 0..looks {
        if taken >= count {
            break;
        }
        match await_entry(consumer, ring, looks, pauses) {
            Some(true) => {
                let (item, _body) = consumer.take(ring);
                if item != Item::Byte((taken % 251) as u8) {
                    break;
                }
                notify_producer(consumer, ring);
                taken += 1;
            }
            Some(false) => {}
            None => break,
        }
    }
    taken
}
