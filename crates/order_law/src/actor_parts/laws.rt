//! What holds of actors that were set apart.
ghost use Rattle.std.specs.Prelude.{◌≡◌, List, map};
ghost use Rattle.wire_core.specs.declared.names.QueueRow.{QueueRow};
ghost use Rattle.spsc_queue.specs.Known.Ends.{RingIs};
ghost use Rattle.actor_set.specs.Actors.{part_anew, part_of};
ghost use Rattle.actor_set.specs.declared.actor.Actor.{Actor};
ghost use Rattle.order_law.specs.ActorParts.Parting.{AreApart};
ghost use Rattle.order_law.specs.ActorParts.Given.{Kept, apart_of};
ghost use Rattle.order_law.specs.ActorParts.Opened.{AreOpened, HaveNothing, AreAsOpened};
ghost use Rattle.order_law.specs.ActorParts.Ready.{AreReady};

/// Actors in their start state that were set apart over new rings have just the ends that the rows
/// give them, each of the ring at its queue's place, fit them and stand for what passed there:
/// nothing. A ring is wild where a hostile actor has an end of its queue. No look at an end answered
/// no yet and no step was made there, and waiters and ringers are those of a new ring. They are of
/// the parts that they were of, once they forgot their looks.
pub fn opened_law()
    ensures apart { (rows : List QueueRow) (actors : List Actor) (rings : List RingIs)
        (parts : List Kept) → AreOpened rows actors rings parts → AreReady rows actors
        → AreApart rows rings (map apart_of parts) }
    ensures nothing { (rows : List QueueRow) (actors : List Actor) (rings : List RingIs)
        (parts : List Kept) → AreOpened rows actors rings parts
        → HaveNothing (map apart_of parts) }
    ensures opened { (rows : List QueueRow) (actors : List Actor) (rings : List RingIs)
        (parts : List Kept) → AreOpened rows actors rings parts
        → AreAsOpened rows (map apart_of parts) }
    ensures cast { (rows : List QueueRow) (actors : List Actor) (rings : List RingIs)
        (parts : List Kept) → AreOpened rows actors rings parts
        → map (λ (p : Kept). part_of p.0.actor) parts ≡ map part_anew actors }
{}
