//! What holds of actors that were at work over rings, each in a thread of its own, once the rings
//! came to their end.

ghost use Rattle.std.specs.Prelude.{◌≡◌, ◌++◌, ℕ, List};
ghost use Rattle.wire_core.specs.declared.names.Event.{Event};
ghost use Rattle.wire_core.specs.declared.names.QueueRow.{QueueRow};
ghost use Rattle.spsc_queue.specs.Known.Ends.{RingIs, EndedIs};
ghost use Rattle.actor_set.specs.declared.actor.Actor.{Actor};
ghost use Rattle.cast_law.specs.Runs.Running.{HaveHeld};
ghost use Rattle.order_law.specs.ActorParts.Parting.{Apart};
ghost use Rattle.order_law.specs.ActorParts.Finished.{AreFinished};
ghost use Rattle.cast_law.specs.Gone.Gone.{HaveGone, HaveLooked, passed_of, left_at};
ghost use Rattle.cast_law.specs.Gone.Gone.{actors_apart};

/// Where the actors of a cast in place stood apart with nothing passed, made their calls at their
/// own ends, and their rings came to their end, each actor is of the part that it was and stands
/// for what the ended rings say passed, by some calls, of which nothing came out of turn by the
/// names of all that was put; clients that aren't hostile put good descriptors and requests alone,
/// and hostile ones of the block class reads and writes alone; and entries carry the pages that
/// their items name at all queues but those of hostile clients. By these calls each end looked in
/// vain as often as it did since the actors stood apart. Each queue handed over in order: what was
/// put there is what was taken and then what is left.
pub fn gone_law()
    ensures held { (rows : List QueueRow) (rings : List RingIs) (olds news : List Apart)
        (actors : List Actor) (ended : List EndedIs) → HaveGone rows rings olds news
        → AreFinished rows rings news actors ended
        → (calls : List Event)
        × HaveHeld rows (actors_apart olds) actors (passed_of ended calls)
        × HaveLooked rows olds ended calls }
    ensures hands_over { (rows : List QueueRow) (rings : List RingIs) (olds news : List Apart)
        (actors : List Actor) (ended : List EndedIs) → HaveGone rows rings olds news
        → AreFinished rows rings news actors ended → (calls : List Event) (n : ℕ)
        → (passed_of ended calls).sent n ≡ (passed_of ended calls).taken n ++ left_at ended n }
{}
