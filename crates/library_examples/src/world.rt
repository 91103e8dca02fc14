//! `plain_wires`: all queues of a system on one thread, with who is notified.

ghost use Rattle.std.specs.Prelude.{◌≡◌, IfOk};
ghost use Rattle.cargo_core.specs.declared.item.QueueKind.TheVariants as Kind;
ghost use Rattle.wire_core.specs.Ends.{Consumer, Producer};
ghost use Rattle.wire_core.specs.Queues.{end_at};
ghost use Rattle.turn_kit.specs.Table.{Agrees, start_state};

use cargo_core::{Body, Item, Memory, QueueKind, Text};
use plain_wires::World;
use std::alloc::Global;
use wire_core::{ActorId, QueueId, QueueRow, Side, Wires};

/// One queue in its start state: of up to four bytes, from actor 0 to actor 1, in no region.
pub fn one_queue(alloc: Global) -> Result<World, Memory>
    ensures producer { IfOk result (λ w. Agrees (end_at w Producer 0) (start_state Side.Backward)) }
    ensures consumer { IfOk result (λ w. Agrees (end_at w Consumer 0) (start_state Side.Forward)) }
    ensures kind { IfOk result (λ w. (end_at w Producer 0).kind ≡ Kind.Byte) }
{
    let row = QueueRow {
        name: Text::new(alloc, "bytes")?,
        kind: QueueKind::Byte,
        capacity: 4,
        producer: ActorId(0),
        consumer: ActorId(1),
        region: None,
        offset: 0,
    };
    let rows = vec![in alloc; row]?;
    World::new(alloc, &rows)
}

/// Actor 0 puts a byte and notifies actor 1, which takes it.
pub fn show_world(alloc: Global) -> Result<String, Memory> {
    let mut world = one_queue(alloc)?;
    let queue = QueueId(0);
    if !world.room(queue) {
        return Ok(String::from_str(alloc, "no room\n")?);
    }
    world.put(queue, Item::Byte(97), Body::Empty);
    let mut text = format!(in alloc; "entries {}\n", world.len(queue))?;
    if !world.wanted(queue, Side::Forward) {
        return Ok(text);
    }
    world.settle(queue, Side::Forward);
    world.ring(queue, Side::Forward);
    write!(
        text,
        "actor 1 is notified: {}\n",
        world.is_pending(ActorId(1))
    )?;
    if !world.wake(queue, Side::Forward) || !world.see(queue) {
        return Ok(text);
    }
    let (item, _body) = world.take(queue);
    write!(text, "taken {item:?}, entries {}\n", world.len(queue))?;
    Ok(text)
}
