//! All queues of a system, in lists: notifications, want of room, queues that are filled and
//! emptied, and rings that go on as queues. Each helper makes one call where the discipline allows
//! it, and answers None where it doesn't; rows of calls are made by `first_wrong`.

ghost use Rattle.std.specs.Prelude.{◌≡◌, ◌<◌, ◌≤◌, length, All, IfOk};
ghost use Rattle.cargo_core.specs.Items.{kind_of};
ghost use Rattle.wire_core.specs.Ends.{Producer};
ghost use Rattle.wire_core.specs.Queues.{end_at};
ghost use Rattle.cargo_core.specs.Capacities.{IsCapacity};

use crate::{queues, row};
use cargo_core::{Body, Item, Memory, QueueKind, Word};
use plain_wires::World;
use ring_rows::{get, give};
use spsc_queue::{Ended, finish, open};
use std::alloc::Global;
use std::test::Fail;
use wire_core::{ActorId, QueueId, Ringer, Side, Waiter, WildWires, Wires};

const Q: QueueId = QueueId(0);

fn see(world: &mut World) -> Option<bool>
    requires { 0 < length world.old }
    ensures len { length world.new ≡ length world.old }
    ensures kind { (end_at world.new Producer 0).kind ≡ (end_at world.old Producer 0).kind }
{
    if world.bell(Q, Side::Forward).waiter == Waiter::Clear {
        return None;
    }
    Some(world.see(Q))
}

fn room(world: &mut World) -> Option<bool>
    requires { 0 < length world.old }
    ensures len { length world.new ≡ length world.old }
    ensures kind { (end_at world.new Producer 0).kind ≡ (end_at world.old Producer 0).kind }
{
    if world.bell(Q, Side::Backward).waiter == Waiter::Clear {
        return None;
    }
    Some(world.room(Q))
}

// Looks and takes at a queue.
fn take_at(world: &mut World, q: QueueId) -> Option<Item>
    requires { q.0 < length world.old }
    ensures len { length world.new ≡ length world.old }
    ensures kind { (end_at world.new Producer 0).kind ≡ (end_at world.old Producer 0).kind }
{
    if world.bell(q, Side::Forward).waiter == Waiter::Clear {
        return None;
    }
    match world.bell(q, Side::Backward).ringer {
        Ringer::Free | Ringer::Put => {}
        Ringer::Hot | Ringer::Ringing => return None,
    }
    if !world.see(q) {
        return None;
    }
    Some(world.take(q).0)
}

fn take(world: &mut World) -> Option<Item>
    requires { 0 < length world.old }
    ensures len { length world.new ≡ length world.old }
    ensures kind { (end_at world.new Producer 0).kind ≡ (end_at world.old Producer 0).kind }
{
    take_at(world, Q)
}

// Looks and puts.
fn put(world: &mut World, byte: u8) -> Option<bool>
    requires there { 0 < length world.old }
    requires byte { (end_at world.old Producer 0).kind ≡ QueueKind.Byte }
    ensures len { length world.new ≡ length world.old }
    ensures kind { (end_at world.new Producer 0).kind ≡ (end_at world.old Producer 0).kind }
{
    if world.bell(Q, Side::Backward).waiter == Waiter::Clear {
        return None;
    }
    match world.bell(Q, Side::Forward).ringer {
        Ringer::Free | Ringer::Put => {}
        Ringer::Hot | Ringer::Ringing => return None,
    }
    if !world.room(Q) {
        return Some(false);
    }
    world.put(Q, Item::Byte(byte), Body::Empty);
    Some(true)
}

// The producer's ring, in three calls; whether the consumer was notified.
fn signal(world: &mut World, side: Side) -> Option<bool>
    requires { 0 < length world.old }
    ensures len { length world.new ≡ length world.old }
    ensures kind { (end_at world.new Producer 0).kind ≡ (end_at world.old Producer 0).kind }
{
    if world.bell(Q, side).ringer != Ringer::Put {
        return None;
    }
    if !world.wanted(Q, side) {
        return Some(false);
    }
    world.settle(Q, side);
    world.ring(Q, side);
    Some(true)
}

fn ask(world: &mut World, side: Side) -> Option<()>
    requires { 0 < length world.old }
    ensures len { length world.new ≡ length world.old }
    ensures kind { (end_at world.new Producer 0).kind ≡ (end_at world.old Producer 0).kind }
{
    match world.bell(Q, side).waiter {
        Waiter::Busy | Waiter::Off => {}
        Waiter::Asked | Waiter::Clear => return None,
    }
    world.ask(Q, side);
    Some(())
}

fn wake(world: &mut World, side: Side) -> bool
    requires { 0 < length world.old }
    ensures len { length world.new ≡ length world.old }
    ensures kind { (end_at world.new Producer 0).kind ≡ (end_at world.old Producer 0).kind }
{
    world.wake(Q, side)
}

// Stores a value in a word of the queue, as a hostile end may.
fn store(world: &mut World, word: Word, value: u64)
    requires { 0 < length world.old }
    ensures len { length world.new ≡ length world.old }
    ensures kind { (end_at world.new Producer 0).kind ≡ (end_at world.old Producer 0).kind }
{
    world.store(Q, word, value);
}

/// A call, or a question about the queue that changes nothing.
#[derive(Clone, Copy)]
enum Call {
    See,
    Room,
    Put(u8),
    Take,
    Signal(Side),
    Ask(Side),
    Wake(Side),
    Store(Word, u64),
    IsPending(u16),
    Len,
}

/// What came of it.
#[derive(Clone, Copy, PartialEq, Eq)]
enum Told {
    NotAllowed,
    Done,
    Yes,
    No,
    Entry(Item),
    Count(u32),
}

fn yes_or_no(answer: Option<bool>) -> Told {
    match answer {
        Some(true) => Told::Yes,
        Some(false) => Told::No,
        None => Told::NotAllowed,
    }
}

// Makes a call at the queue.
fn make(world: &mut World, call: Call) -> Told
    requires there { 0 < length world.old }
    requires byte { (end_at world.old Producer 0).kind ≡ QueueKind.Byte }
    ensures len { length world.new ≡ length world.old }
    ensures kind { (end_at world.new Producer 0).kind ≡ (end_at world.old Producer 0).kind }
{
    match call {
        Call::See => yes_or_no(see(world)),
        Call::Room => yes_or_no(room(world)),
        Call::Put(byte) => yes_or_no(put(world, byte)),
        Call::Take => match take(world) {
            Some(item) => Told::Entry(item),
            None => Told::NotAllowed,
        },
        Call::Signal(side) => yes_or_no(signal(world, side)),
        Call::Ask(side) => match ask(world, side) {
            Some(()) => Told::Done,
            None => Told::NotAllowed,
        },
        Call::Wake(side) => yes_or_no(Some(wake(world, side))),
        Call::Store(word, value) => {
            store(world, word, value);
            Told::Done
        }
        Call::IsPending(actor) => yes_or_no(Some(world.is_pending(ActorId(actor)))),
        Call::Len => Told::Count(world.len(Q)),
    }
}

// Makes the calls of rows in their order, up to the first of which something else comes than stands
// beside it, if any: how many came right before that.
fn first_wrong(world: &mut World, rows: &[(Call, Told)]) -> Option<u32>
    requires there { 0 < length world.old }
    requires byte { (end_at world.old Producer 0).kind ≡ QueueKind.Byte }
    ensures len { length world.new ≡ length world.old }
    ensures kind { (end_at world.new Producer 0).kind ≡ (end_at world.old Producer 0).kind }
{
    let mut right = 0u32;
    for (call, want) in rows {
        if make(world, *call) != *want {
            return Some(right);
        }
        right = right.wrapping_add(1);
    }
    None
}

// 1, 2, 16, and the largest capacity.
fn capacity(size: u8) -> u32
    ensures { IsCapacity result }
{
    match size {
        0 => 1,
        1 => 2,
        2 => 16,
        _ => 32_768,
    }
}

fn one_queue(alloc: Global, size: u8) -> Result<World, Memory>
    ensures len { IfOk result (λ w. length w ≡ 1) }
    ensures kind { IfOk result (λ w. (end_at w Producer 0).kind ≡ QueueKind.Byte) }
{
    queues(alloc, 1, capacity(size))
}

// Puts and takes so many entries one by one; whether each was put and came out.
fn passes(world: &mut World, count: u32) -> bool
    requires there { 0 < length world.old }
    requires byte { (end_at world.old Producer 0).kind ≡ QueueKind.Byte }
    ensures len { length world.new ≡ length world.old }
    ensures kind { (end_at world.new Producer 0).kind ≡ (end_at world.old Producer 0).kind }
{
    let mut byte = 0u8;
    for _ in 0..count {
        if put(world, byte) != Some(true) || take(world) != Some(Item::Byte(byte)) {
            return false;
        }
        byte = byte.wrapping_add(1);
    }
    true
}

// Fills an empty queue, tries one entry more, and takes all; whether that one was refused, and the
// others came out in order.
fn fills_and_empties(world: &mut World, capacity: u32) -> bool
    requires there { 0 < length world.old }
    requires byte { (end_at world.old Producer 0).kind ≡ QueueKind.Byte }
    ensures len { length world.new ≡ length world.old }
    ensures kind { (end_at world.new Producer 0).kind ≡ (end_at world.old Producer 0).kind }
{
    let mut byte = 0u8;
    for _ in 0..capacity {
        if put(world, byte) != Some(true) {
            return false;
        }
        byte = byte.wrapping_add(1);
    }
    if put(world, 0) != Some(false) || world.len(Q) != capacity {
        return false;
    }
    byte = 0;
    for _ in 0..capacity {
        if take(world) != Some(Item::Byte(byte)) {
            return false;
        }
        byte = byte.wrapping_add(1);
    }
    see(world) == Some(false)
}

// A ring that came to its end: three bytes were sent, of which the first was taken.
fn ended_ring(alloc: Global, first: u8) -> Result<Ended, Fail>
    requires { first ≤ 100 }
    ensures kind { IfOk result (λ e. e.producer.kind ≡ QueueKind.Byte) }
    ensures capacity { IfOk result (λ e. e.capacity ≡ 4) }
    ensures kinds { IfOk result (λ e. All (λ c. kind_of c.0 ≡ QueueKind.Byte) e.left) }
    ensures within { IfOk result (λ e. length e.left ≤ 4) }
{
    let (ring, mut producer, mut consumer) = open(alloc, QueueKind::Byte, 4)?;
    give(&mut producer, &ring, first);
    give(&mut producer, &ring, first + 1);
    give(&mut producer, &ring, first + 2);
    get(&mut consumer, &ring);
    Ok(finish(ring, producer, consumer)?)
}

#[test]
fn ended_rings_go_on_as_queues(rt: HostRuntime) -> Result<(), Fail> {
    let rows = [
        row(rt.alloc(), QueueKind::Byte, 4)?,
        row(rt.alloc(), QueueKind::Byte, 4)?,
    ];
    let mut ended = Vec::new(rt.alloc());
    ended.push(ended_ring(rt.alloc(), 10)?)?;
    ended.push(ended_ring(rt.alloc(), 20)?)?;
    let mut world = World::adopt(rt.alloc(), &rows, ended)?;
    assert!(rt; world.is_pending(ActorId(1)) && !world.is_pending(ActorId(0)));
    assert!(rt; take_at(&mut world, QueueId(1)) == Some(Item::Byte(21)));
    assert!(rt; take_at(&mut world, QueueId(0)) == Some(Item::Byte(11)));
    assert!(rt; take_at(&mut world, QueueId(0)) == Some(Item::Byte(12)));
    assert!(rt; take_at(&mut world, QueueId(0)).is_none());
    assert!(rt; take_at(&mut world, QueueId(1)) == Some(Item::Byte(22)));
    assert!(rt; world.len(QueueId(1)) == 0);
    Ok(())
}

#[test]
fn a_stored_index_makes_a_look_say_no_and_never_yes_alone(rt: HostRuntime) -> Result<(), Fail> {
    let mut world = one_queue(rt.alloc(), 1)?;
    let wrong = first_wrong(
        &mut world,
        &[
            (Call::Store(Word::Tail, 1), Told::Done),
            (Call::See, Told::No),
            (Call::Put(97), Told::Yes),
            (Call::See, Told::Yes),
            (Call::Store(Word::Tail, 65536), Told::Done),
            (Call::See, Told::No),
            (Call::Store(Word::Tail, 3), Told::Done),
            (Call::See, Told::No),
            (Call::Store(Word::Tail, 1), Told::Done),
            (Call::Take, Told::Entry(Item::Byte(97))),
            (Call::Store(Word::Head, 0), Told::Done),
            (Call::Room, Told::Yes),
            (Call::Store(Word::Head, 65535), Told::Done),
            (Call::Room, Told::No),
            (Call::Store(Word::Pending, 3), Told::Done),
            (Call::IsPending(1), Told::Yes),
            (Call::Store(Word::Pending, 2), Told::Done),
            (Call::IsPending(1), Told::No),
        ],
    );
    assert!(rt; wrong.is_none());
    Ok(())
}

#[test]
fn a_consumer_that_asked_is_notified_once(rt: HostRuntime) -> Result<(), Fail> {
    for (size, second) in [(0, Told::No), (1, Told::Yes)] {
        let mut world = one_queue(rt.alloc(), size)?;
        let wrong = first_wrong(
            &mut world,
            &[
                (Call::See, Told::No),
                (Call::Ask(Side::Forward), Told::Done),
                (Call::See, Told::No),
                (Call::See, Told::NotAllowed),
                (Call::IsPending(1), Told::No),
                (Call::Put(97), Told::Yes),
                (Call::Signal(Side::Forward), Told::Yes),
                (Call::IsPending(1), Told::Yes),
                (Call::IsPending(0), Told::No),
                (Call::Wake(Side::Forward), Told::Yes),
                (Call::Wake(Side::Forward), Told::No),
                (Call::Take, Told::Entry(Item::Byte(97))),
                (Call::Put(98), Told::Yes),
                (Call::Signal(Side::Forward), Told::No),
                (Call::Put(99), second),
                (Call::Take, Told::Entry(Item::Byte(98))),
            ],
        );
        assert!(rt; wrong.is_none(), "capacity {size}, call {wrong:?}");
    }
    Ok(())
}

#[test]
fn a_producer_that_asked_for_room_is_notified(rt: HostRuntime) -> Result<(), Fail> {
    let mut world = one_queue(rt.alloc(), 0)?;
    let wrong = first_wrong(
        &mut world,
        &[
            (Call::Put(1), Told::Yes),
            (Call::Room, Told::No),
            (Call::Ask(Side::Backward), Told::Done),
            (Call::Room, Told::No),
            (Call::Room, Told::NotAllowed),
            (Call::Take, Told::Entry(Item::Byte(1))),
            (Call::Signal(Side::Backward), Told::Yes),
            (Call::IsPending(0), Told::Yes),
            (Call::Wake(Side::Backward), Told::Yes),
            (Call::Put(2), Told::Yes),
            (Call::Len, Told::Count(1)),
        ],
    );
    assert!(rt; wrong.is_none(), "call {wrong:?}");
    Ok(())
}

#[test]
fn a_queue_is_filled_and_emptied_wherever_its_indices_are(rt: HostRuntime) -> Result<(), Fail> {
    let mut largest = one_queue(rt.alloc(), 3)?;
    assert!(rt; fills_and_empties(&mut largest, 32_768));
    let mut late = one_queue(rt.alloc(), 3)?;
    assert!(rt; passes(&mut late, 40_000));
    assert!(rt; fills_and_empties(&mut late, 32_768));
    let mut small = one_queue(rt.alloc(), 2)?;
    for _ in 0..4_375 {
        assert!(rt; fills_and_empties(&mut small, 16));
    }
    Ok(())
}
