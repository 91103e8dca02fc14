//! What entries carry in a cast with hostile clients: at all queues but theirs the pages that their
//! items name, and at theirs no page of another's pool.

ghost use Rattle.std.specs.Prelude.{◌≡◌, ℕ, List, map};
ghost use Rattle.wire_core.specs.declared.names.QueueRow.{QueueRow};
ghost use Rattle.wire_core.specs.Deeds.{Deed};
ghost use Rattle.wire_core.specs.Lists.{Passed, nothing_passed, with_deed};
ghost use Rattle.play_core.specs.Moved.{Moved};
ghost use Rattle.play_core.specs.Names.{wild_in};
ghost use Rattle.play_core.specs.Rests.Showing.{HaveItems};
ghost use Rattle.owner_law.specs.Pages.{CarryPages};
ghost use Rattle.actor_set.specs.Actors.{part_of};
ghost use Rattle.actor_set.specs.Parts.{Part};
ghost use Rattle.actor_set.specs.declared.actor.Actor.{Actor};
ghost use Rattle.actor_set.specs.Laws.Kinds.{AllCalm, hostiles, scene_of};
ghost use Rattle.cast_law.specs.Pools.Places.{PoolPlace, cast_naming};
ghost use Rattle.cast_law.specs.Pools.Beside.{CastCarries, IsCallAmong, RoguesAsk};

/// So it is where nothing passed yet, and after each call of an actor, whoever is hostile and
/// whatever those put. Where nobody is hostile this says that all entries carry the pages that their
/// items name, and of hostile clients nothing is asked.
pub fn beside_law()
    ensures starts { (rows : List QueueRow) (place : PoolPlace) (actors : List Actor) (m : Moved)
        → HaveItems nothing_passed m → CastCarries rows place actors m nothing_passed }
    ensures carries { (rows : List QueueRow) (place : PoolPlace) (olds news : List Actor)
        (passed : Passed) (d : Deed) (k : ℕ) (m m' : Moved)
        → IsCallAmong rows place olds news passed d k → HaveItems passed m
        → HaveItems (with_deed passed d) m' → CastCarries rows place olds m passed
        → CastCarries rows place news m' (with_deed passed d) }
    ensures plain { (rows : List QueueRow) (place : PoolPlace) (actors : List Actor) (m : Moved)
        (passed : Passed) → AllCalm (map part_of actors) → CastCarries rows place actors m passed
        → CarryPages (cast_naming (scene_of (map part_of actors)) place) m passed }
    ensures beside { (rows : List QueueRow) (place : PoolPlace) (actors : List Actor) (m : Moved)
        (passed : Passed) → AllCalm (map part_of actors)
        → CarryPages (cast_naming (scene_of (map part_of actors)) place) m passed
        → CastCarries rows place actors m passed }
    ensures asks { (rows : List QueueRow) (place : PoolPlace) (cast : List Part) (passed : Passed)
        → AllCalm cast → RoguesAsk (wild_in (hostiles cast) rows) place passed }
{}
