//! A cast that has been at work: whatever its history is, each of its buffers has a place where the
//! journal begins.

ghost use Rattle.std.specs.Prelude.{List, [], map};
ghost use Rattle.wire_core.specs.declared.names.PoolRow.{PoolRow};
ghost use Rattle.wire_core.specs.declared.names.QueueRow.{QueueRow};
ghost use Rattle.wire_core.specs.Journal.{History};
ghost use Rattle.wire_core.specs.Lists.{Passed};
ghost use Rattle.wire_core.specs.Queues.{Queue};
ghost use Rattle.actor_set.specs.Actors.{part_of};
ghost use Rattle.actor_set.specs.declared.actor.Actor.{Actor};
ghost use Rattle.cast_law.specs.Pools.Places.{PoolPlace, IsPlaced, HasPools};
ghost use Rattle.cast_law.specs.Pools.Pooling.{AreAtPlay, HasOwners};

/// A cast whose actors stand for what passed before its journal begins has a table of owners, in
/// which each buffer of its pools has its place.
pub fn past_owner_law()
    ensures { (history : History) (rows : List QueueRow) (pools : List PoolRow) (place : PoolPlace)
        (actors : List Actor) (passed : Passed) (world : List Queue)
        → IsPlaced rows place (map part_of actors) → HasPools pools place
        → AreAtPlay history rows actors [] passed world
        → HasOwners history rows place (map part_of actors) }
{}
