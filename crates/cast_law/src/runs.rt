//! What holds of actors after they were at work over rings, each in a thread of its own: all that
//! single calls keep, since the calls stand in one order.

ghost use Rattle.std.specs.Prelude.{List};
ghost use Rattle.wire_core.specs.declared.names.QueueRow.{QueueRow};
ghost use Rattle.wire_core.specs.Lists.{Passed, nothing_passed};
ghost use Rattle.actor_set.specs.declared.actor.Actor.{Actor};
ghost use Rattle.wired_law.specs.Wiring.{AreOfKind};
ghost use Rattle.order_law.specs.Orders.{Turn, InOrder};
ghost use Rattle.cast_law.specs.Runs.Running.{AreReady, HaveHeld};

/// Where a cast in place began with nothing and made its calls one after another, and what was put
/// to each queue is of the queue's kind, each actor is of the part that it was and stands for what
/// passed, of which nothing came out of turn by the names of all that was put; clients that aren't
/// hostile put good descriptors and requests alone, and hostile ones of the block class reads and
/// writes alone; and entries carry the pages that their items name at all queues but those of
/// hostile clients.
pub fn run_law()
    ensures { (rows : List QueueRow) (olds news : List Actor) (turns : List Turn)
        (passed : Passed) → AreReady rows olds → InOrder olds nothing_passed turns news passed
        → AreOfKind rows passed → HaveHeld rows olds news passed }
{}
