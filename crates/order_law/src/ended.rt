//! What rings leave that came to their end, after their owners were at work in threads: queues that
//! go on with their entries and bells, which hold.

ghost use Rattle.std.specs.Prelude.{List, length};
ghost use Rattle.wire_core.specs.declared.names.QueueRow.{QueueRow};
ghost use Rattle.spsc_queue.specs.Known.Ends.{RingIs, EndedIs};
ghost use Rattle.play_core.specs.Still.{IsPeopled};
ghost use Rattle.actor_set.specs.declared.actor.Actor.{Actor};
ghost use Rattle.order_law.specs.ActorParts.Parting.{Apart, AreApart};
ghost use Rattle.order_law.specs.ActorParts.Finished.{AreFinished};
ghost use Rattle.order_law.specs.Ended.Leaving.{AreLeft};

/// Where actors apart gave up their ends, each queue of their rows goes on from what its ring had:
/// its entries stand there in order, its bells hold, and its track tells what both owners knew. An
/// actor that forgot its looks fits its ends there.
pub fn ended_law()
    ensures { (rows : List QueueRow) (rings : List RingIs) (parts : List Apart)
        (actors : List Actor) (ended : List EndedIs) → IsPeopled rows (length parts)
        → AreApart rows rings parts → AreFinished rows rings parts actors ended
        → AreLeft rows parts ended }
{}
