//! A ring call by call on one thread, and between two threads.
ghost use Rattle.std.specs.Prelude.{◌≡◌, ◌≤◌, true};
ghost use Rattle.cargo_core.specs.declared.item.QueueKind.TheVariants as Kind;
ghost use Rattle.wire_core.specs.declared.names.Ringer.TheVariants as Rung;
ghost use Rattle.wire_core.specs.Ends.{is_busy_or_off, is_free_or_put};

use crate::bells::{notify_consumer, notify_producer};
use crate::{byte_ring, give_up, offer, poll, send, send_by_bells, take, take_by_bells};
use cargo_core::{Body, Item, Memory};
use spsc_queue::{Consumer, Ended, Producer, Ring};
use std::alloc::Global;
use std::marker::Brand;
use std::test::Fail;
use std::thread::{Threads, join_mut};
use wire_core::{BellState, Ringer, Side, Waiter};

// The next entry that was left, if any.
fn left(ended: &mut Ended) -> Option<Item> {
    match ended.next() {
        Some((item, _body)) => Some(item),
        None => None,
    }
}

#[test]
fn a_ring_of_two_places_call_by_call(rt: HostRuntime) -> Result<(), Fail> {
    let (ring, mut producer, mut consumer) = byte_ring(rt.alloc(), 1)?;
    assert!(rt; offer(&mut producer, &ring, 1));
    assert!(rt; offer(&mut producer, &ring, 2));
    assert!(rt; !offer(&mut producer, &ring, 3));
    assert!(rt; poll(&mut consumer, &ring) == Some(Item::Byte(1)));
    let mut ended = give_up(ring, producer, consumer)?;
    let bell = BellState {
        flag: false,
        pending: false,
        waiter: Waiter::Busy,
        ringer: Ringer::Put,
    };
    assert!(rt; ended.bell(Side::Forward) == bell);
    assert!(rt; left(&mut ended) == Some(Item::Byte(2)));
    assert!(rt; left(&mut ended).is_none());
    Ok(())
}

// A look, a wish and a look again: whether both looks said no.
fn asks_in_vain(consumer: &mut Consumer, ring: &Ring) -> bool
    requires own { consumer.old.ring ≡ ring.now.id }
    requires calm { is_busy_or_off consumer.old.knows.waiter ≡ true }
    ensures own { consumer.new.ring ≡ consumer.old.ring }
    ensures ringer { consumer.new.knows.ringer ≡ consumer.old.knows.ringer }
{
    let first = consumer.see(ring);
    consumer.ask(ring);
    let second = consumer.see(ring);
    !first && !second
}

// A put where there is room, of which the consumer is notified if it wants that: whether it was put,
// and whether it was notified.
fn puts(producer: &mut Producer, ring: &Ring, byte: u8) -> (bool, bool)
    requires own { producer.old.ring ≡ ring.now.id }
    requires calm { is_busy_or_off producer.old.knows.waiter ≡ true }
    requires free { producer.old.knows.ringer ≡ Rung.Free }
    requires kind { producer.old.knows.kind ≡ Kind.Byte }
    ensures own { producer.new.ring ≡ producer.old.ring }
    ensures calm { is_busy_or_off producer.new.knows.waiter ≡ true }
    ensures free { producer.new.knows.ringer ≡ Rung.Free }
    ensures kind { producer.new.knows.kind ≡ producer.old.knows.kind }
{
    if !producer.room(ring) {
        return (false, false);
    }
    producer.put::<Brand>(ring, Item::Byte(byte), Body::Empty);
    (true, notify_consumer(producer, ring))
}

// What a consumer takes that is notified; None where it wasn't, or nothing stands there.
fn takes_woken(consumer: &mut Consumer, ring: &Ring) -> Option<Item>
    requires own { consumer.old.ring ≡ ring.now.id }
    requires free { is_free_or_put consumer.old.knows.ringer ≡ true }
    ensures own { consumer.new.ring ≡ consumer.old.ring }
{
    if !consumer.wake(ring) {
        return None;
    }
    if !consumer.see(ring) {
        return None;
    }
    Some(consumer.take(ring).0)
}

// A consumer that wants no notification: whether one is pending.
fn is_woken_off(consumer: &mut Consumer, ring: &Ring) -> bool
    requires { consumer.old.ring ≡ ring.now.id }
{
    consumer.waive(ring);
    consumer.wake(ring)
}

#[test]
fn a_filled_queue_is_signalled_once(rt: HostRuntime) -> Result<(), Fail> {
    let (ring, mut producer, mut consumer) = byte_ring(rt.alloc(), 1)?;
    assert!(rt; asks_in_vain(&mut consumer, &ring));
    assert!(rt; puts(&mut producer, &ring, 1) == (true, true));
    assert!(rt; puts(&mut producer, &ring, 2) == (true, false));
    assert!(rt; takes_woken(&mut consumer, &ring) == Some(Item::Byte(1)));
    assert!(rt; !is_woken_off(&mut consumer, &ring));
    Ok(())
}

// A wish for room, and a look: whether there is room.
fn asks_for_room(producer: &mut Producer, ring: &Ring) -> bool
    requires own { producer.old.ring ≡ ring.now.id }
    requires calm { is_busy_or_off producer.old.knows.waiter ≡ true }
    ensures own { producer.new.ring ≡ producer.old.ring }
{
    producer.ask(ring);
    producer.room(ring)
}

// What a consumer takes, and whether the producer was notified of it.
fn takes(consumer: &mut Consumer, ring: &Ring) -> Option<(Item, bool)>
    requires own { consumer.old.ring ≡ ring.now.id }
    requires calm { is_busy_or_off consumer.old.knows.waiter ≡ true }
    requires free { consumer.old.knows.ringer ≡ Rung.Free }
    ensures own { consumer.new.ring ≡ consumer.old.ring }
{
    if !consumer.see(ring) {
        return None;
    }
    let (item, _body) = consumer.take(ring);
    Some((item, notify_producer(consumer, ring)))
}

// Whether a producer is notified, and finds room.
fn finds_room_woken(producer: &mut Producer, ring: &Ring) -> bool
    requires { producer.old.ring ≡ ring.now.id }
    ensures { producer.new.ring ≡ producer.old.ring }
{
    if !producer.wake(ring) {
        return false;
    }
    producer.room(ring)
}

// A producer that wants no notification: whether one is pending.
fn is_producer_woken_off(producer: &mut Producer, ring: &Ring) -> bool
    requires { producer.old.ring ≡ ring.now.id }
{
    producer.waive(ring);
    producer.wake(ring)
}

#[test]
fn room_is_signalled_once(rt: HostRuntime) -> Result<(), Fail> {
    let (ring, mut producer, mut consumer) = byte_ring(rt.alloc(), 0)?;
    assert!(rt; offer(&mut producer, &ring, 1));
    assert!(rt; !asks_for_room(&mut producer, &ring));
    assert!(rt; takes(&mut consumer, &ring) == Some((Item::Byte(1), true)));
    assert!(rt; finds_room_woken(&mut producer, &ring));
    assert!(rt; !is_producer_woken_off(&mut producer, &ring));
    Ok(())
}

// Whether the largest ring takes as many bytes as it has places, refuses one more, and gives them
// back in order.
fn fills_and_empties(ring: &Ring, producer: &mut Producer, consumer: &mut Consumer) -> bool
    requires producer { producer.old.ring ≡ ring.now.id }
    requires producer_is_calm { is_busy_or_off producer.old.knows.waiter ≡ true }
    requires producer_is_free { is_free_or_put producer.old.knows.ringer ≡ true }
    requires kind { producer.old.knows.kind ≡ Kind.Byte }
    requires consumer { consumer.old.ring ≡ ring.now.id }
    requires consumer_is_calm { is_busy_or_off consumer.old.knows.waiter ≡ true }
    requires consumer_is_free { is_free_or_put consumer.old.knows.ringer ≡ true }
    ensures producer { producer.new.ring ≡ producer.old.ring }
    ensures producer_is_calm { is_busy_or_off producer.new.knows.waiter ≡ true }
    ensures producer_is_free { is_free_or_put producer.new.knows.ringer ≡ true }
    ensures kind { producer.new.knows.kind ≡ producer.old.knows.kind }
    ensures consumer { consumer.new.ring ≡ consumer.old.ring }
    ensures consumer_is_calm { is_busy_or_off consumer.new.knows.waiter ≡ true }
    ensures consumer_is_free { is_free_or_put consumer.new.knows.ringer ≡ true }
{
    let sent = send(producer, ring, 32_768, 32_768, 4);
    let one_more = offer(producer, ring, 0);
    let taken = take(consumer, ring, 32_768, 32_768, 4);
    let one_less = poll(consumer, ring);
    sent == 32_768 && !one_more && taken == 32_768 && one_less.is_none()
}

// Its indices have wrapped before it is filled for the third time.
#[test]
fn the_largest_ring_is_filled_and_emptied(rt: HostRuntime) -> Result<(), Fail> {
    let (ring, mut producer, mut consumer) = byte_ring(rt.alloc(), 15)?;
    assert!(rt; fills_and_empties(&ring, &mut producer, &mut consumer));
    assert!(rt; fills_and_empties(&ring, &mut producer, &mut consumer));
    assert!(rt; fills_and_empties(&ring, &mut producer, &mut consumer));
    Ok(())
}

// Whether so many bytes go from one thread to another over a ring whose capacity is 2 to a power,
// and none is left.
fn cross(rt: &impl Threads, alloc: Global, power: u32, count: u32) -> Result<bool, Memory>
    requires { power ≤ 15 }
{
    let (ring, mut producer, mut consumer) = byte_ring(alloc, power)?;
    let (sent, taken) = join_mut(
        rt,
        &mut || send(&mut producer, &ring, count, 100_000_000, 4),
        &mut || take(&mut consumer, &ring, count, 100_000_000, 4),
    );
    let mut ended = give_up(ring, producer, consumer)?;
    Ok(sent == count && taken == count && left(&mut ended).is_none())
}

#[test]
fn bytes_cross_one_place(rt: HostRuntime) -> Result<(), Memory> {
    assert!(rt; cross(&rt, rt.alloc(), 0, 10_000)?);
    Ok(())
}

#[test]
fn bytes_cross_sixteen_places(rt: HostRuntime) -> Result<(), Memory> {
    assert!(rt; cross(&rt, rt.alloc(), 4, 70_000)?);
    Ok(())
}

#[test]
fn bytes_cross_by_notifications(rt: HostRuntime) -> Result<(), Fail> {
    let (ring, mut producer, mut consumer) = byte_ring(rt.alloc(), 1)?;
    let (sent, taken) = join_mut(
        &rt,
        &mut || send_by_bells(&mut producer, &ring, 10_000, 100_000_000, 4),
        &mut || take_by_bells(&mut consumer, &ring, 10_000, 100_000_000, 4),
    );
    assert!(rt; sent == 10_000 && taken == 10_000);
    Ok(())
}
