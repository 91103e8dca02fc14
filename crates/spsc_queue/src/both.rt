//! Both ends at once: here it is proved that a ring may be shared between threads, and that its
//! ends may move into them.
ghost use Rattle.std.specs.Prelude.{◌≡◌, false, []};
ghost use Rattle.wire_core.specs.Deeds.{answer_of};
ghost use Rattle.wire_core.specs.Ends.{is_clear};
ghost use Rattle.spsc_queue.specs.Steps.{EndDid};

use crate::consumer::Consumer;
use crate::producer::Producer;
use crate::ring::Ring;
use std::thread::{Threads, join_mut};
use wire_core::Op;

/// Each end looks once, each in a thread of its own: the producer for room, the consumer for an
/// entry.
pub fn both_look<R: Threads + Sync>(
    rt: &R,
    ring: &Ring,
    producer: &mut Producer,
    consumer: &mut Consumer,
) -> (bool, bool)
    requires producer { (producer.old.ring ≡ ring.now.id)
        × (is_clear producer.old.knows.waiter ≡ false) }
    requires consumer { (consumer.old.ring ≡ ring.now.id)
        × (is_clear consumer.old.knows.waiter ≡ false) }
    ensures own { (producer.new.ring ≡ ring.now.id) × (consumer.new.ring ≡ ring.now.id) }
    ensures producer { EndDid ring.now.id.slots producer.old.knows Op.Room
        (answer_of result.0) [] producer.new.knows }
    ensures consumer { EndDid ring.now.id.slots consumer.old.knows Op.See
        (answer_of result.1) [] consumer.new.knows }
{
    join_mut(rt, &mut || producer.room(ring), &mut || consumer.see(ring))
}
