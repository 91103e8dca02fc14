//! The ends of a wild ring of bytes, of which one stores what it likes in the ring's words.
ghost use Rattle.std.specs.Prelude.{◌≡◌, ◌≤◌, ◌^◌, true, IfOk};
ghost use Rattle.cargo_core.specs.declared.item.QueueKind.TheVariants as Kind;
ghost use Rattle.wire_core.specs.Ends.{is_busy_or_off, is_free_or_put};
ghost use Rattle.spsc_queue.specs.Rule.{wild_producer, wild_consumer};
ghost use Rattle.spsc_queue.specs.Steps.{known_end};

use crate::hand::offer;
use crate::pausing::pause;
use cargo_core::{Memory, QueueKind, Word};
use spsc_queue::{Consumer, Producer, Ring, open_wild};
use std::alloc::Global;

/// A wild ring of bytes in its start state, whose capacity is 2 to a power.
pub fn wild_byte_ring(alloc: Global, power: u32) -> Result<(Ring, Producer, Consumer), Memory>
    requires { power ≤ 15 }
    ensures ring { IfOk result (λ r. (r.0.kind ≡ Kind.Byte) × (r.0.id.slots ≡ 2 ^ power)
        × (r.0.wild ≡ true)) }
    ensures producer { IfOk result (λ r. r.1
        ≡ record { ring = r.0.id; knows = wild_producer Kind.Byte }) }
    ensures consumer { IfOk result (λ r. r.2
        ≡ record { ring = r.0.id; knows = wild_consumer Kind.Byte }) }
{
    let capacity = 1u32 << power;
    open_wild(alloc, QueueKind::Byte, capacity)
}

// Each of the six words in turn.
fn word_of(round: u32) -> Word {
    match round % 6 {
        0 => Word::Head,
        1 => Word::Tail,
        2 => Word::Flag,
        3 => Word::FlagBack,
        4 => Word::Pending,
        _ => Word::PendingBack,
    }
}

/// Makes so many stores, into each word in turn, and no other call.
pub fn scribble(producer: &mut Producer, ring: &Ring, count: u32)
    requires own { producer.old.ring ≡ ring.now.id }
    requires wild { ring.now.wild ≡ true }
    ensures own { producer.new.ring ≡ producer.old.ring }
    ensures end { known_end producer.new.knows ≡ known_end producer.old.knows }
{
    for round in 0..count {
        producer.store(ring, word_of(round), u64::from(round) * 40_503);
    }
}

/// Puts so many bytes as `send` does, with a store before each look, and gives up after so many
/// looks: how many were put. Every other round of stores has the number of what was sent in the
/// indices, and so does the last one.
pub fn send_wildly(producer: &mut Producer, ring: &Ring, count: u32, looks: u32, pauses: u32) -> u32
    requires own { producer.old.ring ≡ ring.now.id }
    requires wild { ring.now.wild ≡ true }
    requires calm { is_busy_or_off producer.old.knows.waiter ≡ true }
    requires free { is_free_or_put producer.old.knows.ringer ≡ true }
    requires kind { producer.old.knows.kind ≡ Kind.Byte }
    ensures own { producer.new.ring ≡ producer.old.ring }
    ensures most { result ≤ count }
{
    let mut sent = 0;
    for look in 0..looks {
        if sent >= count {
            break;
        }
        let value = if look / 6 % 2 == 0 {
            u64::from(look) * 40_503
        } else {
            u64::from(sent)
        };
        producer.store(ring, word_of(look), value);
        if offer(producer, ring, (sent % 251) as u8) {
            sent += 1;
        } else {
            pause(pauses);
        }
    }
    producer.store(ring, Word::Tail, u64::from(sent));
    sent
}
