//! An entry is put or taken by hand: the other end of a queue, whose actor is missing. The hand
//! keeps the discipline of its end, but never asks for a notification.

ghost use Rattle.std.specs.Prelude.{◌≡◌, ◌<◌, length};
ghost use Rattle.cargo_core.specs.Items.{kind_of};
ghost use Rattle.wire_core.specs.Ends.{Producer, Consumer, Allows, ringing_role};
ghost use Rattle.wire_core.specs.Queues.{end_at};
ghost use Rattle.base_rows.specs.Hands.{OnlyAt};

use cargo_core::{Body, Item, QueueKind};
use plain_wires::World;
use wire_core::{Op, QueueId, Ringer, Side, Waiter, Wires};

// Notifies the other end where it wants that.
fn notify(world: &mut World, q: QueueId, side: Side)
    requires { Allows (end_at world.old (ringing_role side) q.0) (Op.Wanted side) }
    ensures { OnlyAt (ringing_role side) q.0 world.old world.new }
{
    if world.wanted(q, side) {
        world.settle(q, side);
        world.ring(q, side);
    }
}

/// Puts an entry into a queue of its kind, and notifies the consumer where it wants that; false
/// where there is no room.
pub fn put_in(world: &mut World, q: QueueId, item: Item, body: Body) -> bool
    requires there { q.0 < length world.old }
    requires kind { kind_of item ≡ (end_at world.old Producer q.0).kind }
    ensures { OnlyAt Producer q.0 world.old world.new }
{
    if world.bell(q, Side::Backward).waiter == Waiter::Clear {
        return false;
    }
    if world.bell(q, Side::Forward).ringer != Ringer::Free {
        return false;
    }
    if !world.room(q) {
        return false;
    }
    world.put(q, item, body);
    notify(world, q, Side::Forward);
    true
}

/// Puts a byte into a queue of bytes; false where there is no room.
pub fn give(world: &mut World, q: QueueId, byte: u8) -> bool
    requires there { q.0 < length world.old }
    requires kind { (end_at world.old Producer q.0).kind ≡ QueueKind.Byte }
    ensures { OnlyAt Producer q.0 world.old world.new }
{
    put_in(world, q, Item::Byte(byte), Body::Empty)
}

/// Takes an entry with its body, and notifies the producer where it wants that; None where none
/// stands there.
pub fn get_entry(world: &mut World, q: QueueId) -> Option<(Item, Body)>
    requires { q.0 < length world.old }
    ensures { OnlyAt Consumer q.0 world.old world.new }
{
    if world.bell(q, Side::Forward).waiter == Waiter::Clear {
        return None;
    }
    if world.bell(q, Side::Backward).ringer != Ringer::Free {
        return None;
    }
    if !world.see(q) {
        return None;
    }
    let entry = world.take(q);
    notify(world, q, Side::Backward);
    Some(entry)
}

/// The same without the body.
pub fn get(world: &mut World, q: QueueId) -> Option<Item>
    requires { q.0 < length world.old }
    ensures { OnlyAt Consumer q.0 world.old world.new }
{
    let (item, _body) = get_entry(world, q)?;
    Some(item)
}
