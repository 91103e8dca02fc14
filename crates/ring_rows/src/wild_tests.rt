//! A wild ring call by call on one thread, and between two threads.
ghost use Rattle.std.specs.Prelude.{◌≡◌, ◌≤◌, true};
ghost use Rattle.wire_core.specs.Ends.{is_busy_or_off};
ghost use Rattle.spsc_queue.specs.Steps.{known_end};

use crate::{give_up, offer, poll, scribble, send, send_wildly, take, wild_byte_ring};
use cargo_core::{Item, Memory, Word};
use spsc_queue::{Consumer, Ended, Producer, Ring};
use std::alloc::Global;
use std::test::Fail;
use std::thread::{Threads, join_mut};

// Whether what is left are these numbers and no other.
fn leaves(ended: &mut Ended, first: u32, count: u32) -> bool {
    for number in first..count {
        match ended.next() {
            Some((item, _body)) => {
                if item != Item::Byte((number % 251) as u8) {
                    return false;
                }
            }
            None => return false,
        }
    }
    ended.next().is_none()
}

// Whether a look says yes behind a store of this tail.
fn sees(producer: &mut Producer, consumer: &mut Consumer, ring: &Ring, tail: u64) -> bool
    requires producer { producer.old.ring ≡ ring.now.id }
    requires consumer { consumer.old.ring ≡ ring.now.id }
    requires wild { ring.now.wild ≡ true }
    requires calm { is_busy_or_off consumer.old.knows.waiter ≡ true }
    ensures producer { producer.new.ring ≡ producer.old.ring }
    ensures producer_end { known_end producer.new.knows ≡ known_end producer.old.knows }
    ensures consumer { consumer.new.ring ≡ consumer.old.ring }
    ensures calm { is_busy_or_off consumer.new.knows.waiter ≡ true }
    ensures ringer { consumer.new.knows.ringer ≡ consumer.old.knows.ringer }
{
    producer.store(ring, Word::Tail, tail);
    consumer.see(ring)
}

// Whether one notification is pending behind a store of this word.
fn is_woken_once(producer: &mut Producer, consumer: &mut Consumer, ring: &Ring, word: u64) -> bool
    requires producer { producer.old.ring ≡ ring.now.id }
    requires consumer { consumer.old.ring ≡ ring.now.id }
    requires wild { ring.now.wild ≡ true }
    ensures producer { producer.new.ring ≡ producer.old.ring }
    ensures producer_end { known_end producer.new.knows ≡ known_end producer.old.knows }
    ensures consumer { consumer.new.ring ≡ consumer.old.ring }
{
    producer.store(ring, Word::Pending, word);
    let first = consumer.wake(ring);
    let again = consumer.wake(ring);
    first && !again
}

// Around one put each tail that doesn't fit makes a look answer no, also while its slot is granted,
// and one that fits shows what is there and nothing else.
#[test]
fn a_stored_tail_shows_no_entry_that_is_not_there(rt: HostRuntime) -> Result<(), Fail> {
    let (ring, mut producer, mut consumer) = wild_byte_ring(rt.alloc(), 2)?;
    assert!(rt; !sees(&mut producer, &mut consumer, &ring, 77));
    assert!(rt; !sees(&mut producer, &mut consumer, &ring, 1));
    assert!(rt; offer(&mut producer, &ring, 9));
    assert!(rt; !sees(&mut producer, &mut consumer, &ring, 65_536));
    assert!(rt; sees(&mut producer, &mut consumer, &ring, 4));
    assert!(rt; !sees(&mut producer, &mut consumer, &ring, 0));
    assert!(rt; sees(&mut producer, &mut consumer, &ring, 1));
    assert!(rt; poll(&mut consumer, &ring) == Some(Item::Byte(9)));
    assert!(rt; is_woken_once(&mut producer, &mut consumer, &ring, 3));
    consumer.store(&ring, Word::Head, 60);
    assert!(rt; !producer.room(&ring));
    let mut ended = give_up(ring, producer, consumer)?;
    assert!(rt; ended.sent() == 1 && ended.taken() == 1);
    assert!(rt; leaves(&mut ended, 0, 0));
    Ok(())
}

// A head that says that all was taken makes no room on a full ring.
#[test]
fn a_stored_head_makes_no_room(rt: HostRuntime) -> Result<(), Fail> {
    let (ring, mut producer, mut consumer) = wild_byte_ring(rt.alloc(), 1)?;
    assert!(rt; offer(&mut producer, &ring, 0));
    assert!(rt; offer(&mut producer, &ring, 1));
    consumer.store(&ring, Word::Head, 2);
    assert!(rt; !offer(&mut producer, &ring, 7));
    assert!(rt; poll(&mut consumer, &ring) == Some(Item::Byte(0)));
    assert!(rt; offer(&mut producer, &ring, 2));
    let mut ended = give_up(ring, producer, consumer)?;
    assert!(rt; ended.sent() == 3 && ended.taken() == 1);
    assert!(rt; leaves(&mut ended, 1, 3));
    Ok(())
}

// Whether a wild ring whose capacity is 2 to a power takes as many bytes as it has places, refuses
// one more, and gives them back in order, two times.
fn fills_and_empties(alloc: Global, power: u32) -> Result<bool, Memory>
    requires { power ≤ 15 }
{
    let places = 1u32 << power;
    let looks = u64::from(places);
    let (ring, mut producer, mut consumer) = wild_byte_ring(alloc, power)?;
    let sent = send(&mut producer, &ring, places, looks, 4);
    let one_more = offer(&mut producer, &ring, 0);
    let taken = take(&mut consumer, &ring, places, looks, 4);
    let one_less = poll(&mut consumer, &ring).is_none();
    let again = send(&mut producer, &ring, places, looks, 4);
    let mut ended = give_up(ring, producer, consumer)?;
    let all = sent == places && !one_more && taken == places && one_less && again == places;
    Ok(all && leaves(&mut ended, 0, places))
}

#[test]
fn wild_rings_of_all_sizes(rt: HostRuntime) -> Result<(), Memory> {
    assert!(rt; fills_and_empties(rt.alloc(), 0)?);
    assert!(rt; fills_and_empties(rt.alloc(), 4)?);
    assert!(rt; fills_and_empties(rt.alloc(), 15)?);
    Ok(())
}

// A third of the sender's calls store into the words.
#[test]
fn bytes_cross_between_stores(rt: HostRuntime) -> Result<(), Memory> {
    let (ring, mut producer, mut consumer) = wild_byte_ring(rt.alloc(), 4)?;
    let (sent, taken) = join_mut(
        &rt,
        &mut || send_wildly(&mut producer, &ring, 70_000, 100_000_000, 4),
        &mut || take(&mut consumer, &ring, 70_000, 100_000_000, 4),
    );
    let mut ended = give_up(ring, producer, consumer)?;
    assert!(rt; sent == 70_000 && taken == 70_000);
    assert!(rt; leaves(&mut ended, 0, 0));
    Ok(())
}

// Beside a neighbour that only stores, what is taken is a beginning of what was put, and no entry
// comes twice.
#[test]
fn a_neighbour_that_only_stores(rt: HostRuntime) -> Result<(), Memory> {
    let (ring, mut producer, mut consumer) = wild_byte_ring(rt.alloc(), 4)?;
    let sent = send(&mut producer, &ring, 16, 16, 0);
    let (_, taken) = join_mut(
        &rt,
        &mut || scribble(&mut producer, &ring, 200_000),
        &mut || take(&mut consumer, &ring, 100, 20_000, 0),
    );
    let mut ended = give_up(ring, producer, consumer)?;
    assert!(rt; sent == 16 && ended.sent() == 16 && taken <= 16);
    assert!(rt; u32::from(ended.taken()) == taken && leaves(&mut ended, taken, 16));
    Ok(())
}
