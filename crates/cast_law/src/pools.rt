//! The pools of a cast, of whatever classes it has: what a program counts in queues and hands and
//! as lent is what the table of owners says after the journal.

ghost use Rattle.std.specs.Prelude.{◌≡◌, ◌≤◌, ℕ, List, length, map};
ghost use Rattle.wire_core.specs.declared.names.PoolRow.{PoolRow};
ghost use Rattle.wire_core.specs.declared.names.QueueRow.{QueueRow};
ghost use Rattle.wire_core.specs.declared.names.Entry.{Entry};
ghost use Rattle.wire_core.specs.Deeds.{Deed};
ghost use Rattle.wire_core.specs.Journal.{History, EachMoment, start_history};
ghost use Rattle.wire_core.specs.Lists.{Passed, with_deed};
ghost use Rattle.wire_core.specs.Queues.{Queue};
ghost use Rattle.play_core.specs.Moved.{Moved, moved};
ghost use Rattle.play_core.specs.Sheets.{Scene, AreSeated};
ghost use Rattle.owner_law.specs.Things.{Naming};
ghost use Rattle.owner_law.specs.Census.{IsPool};
ghost use Rattle.owner_law.specs.Owners.{Table, replay};
ghost use Rattle.owner_law.specs.Keeping.{start_table};
ghost use Rattle.owner_law.specs.Pages.{CarryPages};
ghost use Rattle.blk_law.specs.Owners.Answering.{IsInOrder};
ghost use Rattle.play_core.specs.Rests.Showing.{HaveItems};
ghost use Rattle.owner_law.specs.Pools.Handing.{HandsOn, TakesPages};
ghost use Rattle.owner_law.specs.Pools.Lines.{HoldsIts};
ghost use Rattle.cast_law.specs.PoolLines.PoolLines.{table_lines, counted_lines};
ghost use Rattle.actor_set.specs.Parts.{Part};
ghost use Rattle.actor_set.specs.Actors.{ActorStandsFor, IsWhole, part_of, bad_of};
ghost use Rattle.actor_set.specs.declared.actor.Actor.{Actor};
ghost use Rattle.actor_set.specs.Laws.Kinds.{manner_of, AllCalm, sheet, scene_of};
ghost use Rattle.actor_set.specs.Laws.Turning.{InTurn};
ghost use Rattle.play_core.specs.Manners.{Calm};
ghost use Rattle.cast_law.specs.Pools.Holders.{NamesAt, IsSized, TakesNet, actor_holder};
ghost use Rattle.cast_law.specs.Pools.Holders.{holders_of};
ghost use Rattle.cast_law.specs.Pools.Places.{PoolPlace, IsPlaced, HasPools, ArePooled};
ghost use Rattle.cast_law.specs.Pools.Places.{cast_naming, place_sizes};
ghost use Rattle.cast_law.specs.Pools.Pooling.{keepers_at, AddUp, AreAtPlay, BeginsWith};
ghost use Rattle.cast_law.specs.Pools.Pooling.{HasOwners, AreKindly, IsCall};

/// Where nothing came out of turn at an actor that isn't hostile, of any class, queues hand over in
/// order, and what it took carries the pages that are named, so does what it put; and of each pool
/// it had at the start and took what it put, has in its hand and has lent. It counted nothing as
/// bad.
pub fn holder_law()
    ensures hands_on { (naming : Naming) (scene : Scene) (x : Actor) (passed : Passed) (m : Moved)
        → HaveItems passed m → IsInOrder naming m → manner_of (part_of x) ≡ Calm
        → NamesAt naming scene (part_of x) → TakesNet x passed → IsWhole x
        → InTurn scene x passed → ActorStandsFor x passed
        → HandsOn naming m passed (sheet scene (part_of x)).ends }
    ensures holds { (naming : Naming) (sizes : ℕ → ℕ) (scene : Scene) (x : Actor)
        (passed : Passed) (m : Moved) → HaveItems passed m → manner_of (part_of x) ≡ Calm
        → NamesAt naming scene (part_of x) → IsSized sizes (part_of x) → IsWhole x
        → InTurn scene x passed → ActorStandsFor x passed
        → TakesPages naming m passed (sheet scene (part_of x)).ends
        → HoldsIts naming sizes m passed (actor_holder scene x) }
    ensures bad { (scene : Scene) (x : Actor) (passed : Passed) → InTurn scene x passed
        → ActorStandsFor x passed → bad_of x ≡ 0 }
{}

/// Entries that carry the pages which their items name do so after each call of an actor. So the
/// lines that a program counts, of a cast's pools by their numbers, are those of the table of
/// owners after the journal, from any table on with which the cast begins; and each line's numbers
/// add up to its pool, where its buffers have their places in such a table. At the start state it
/// begins with each pool's buffers in the hand of the actor that owns it. There are no more pools
/// than a number of 16 bits tells, where there are no more queues. At each moment of a cast at
/// play queues have what is of their kind.
pub fn cast_pool_law()
    ensures carries { (rows : List QueueRow) (place : PoolPlace) (cast : List Part)
        (m m' : Moved) (passed : Passed) (d : Deed) (k : ℕ) (x : Actor)
        → IsCall rows place cast m m' passed d k x
        → CarryPages (cast_naming (scene_of cast) place) m' (with_deed passed d) }
    ensures lines { (history : History) (rows : List QueueRow) (pools : List PoolRow)
        (place : PoolPlace) (actors : List Actor) (start : Table) (journal : List Entry)
        (passed : Passed) (world : List Queue)
        → IsPlaced rows place (map part_of actors) → HasPools pools place
        → AreAtPlay history rows actors journal passed world
        → BeginsWith history rows place (map part_of actors) start
        → CarryPages (cast_naming (scene_of (map part_of actors)) place)
        (moved history journal) passed
        → counted_lines world (holders_of actors) 0 pools
        ≡ table_lines (replay (cast_naming (scene_of (map part_of actors)) place)
        history start journal) 0 pools }
    ensures whole { (history : History) (rows : List QueueRow) (pools : List PoolRow)
        (place : PoolPlace) (actors : List Actor) (journal : List Entry) (passed : Passed)
        (world : List Queue)
        → IsPlaced rows place (map part_of actors) → HasPools pools place
        → AreAtPlay history rows actors journal passed world
        → HasOwners history rows place (map part_of actors)
        → CarryPages (cast_naming (scene_of (map part_of actors)) place)
        (moved history journal) passed
        → AddUp world (holders_of actors) pools }
    ensures anew { (rows : List QueueRow) (pools : List PoolRow) (place : PoolPlace)
        (cast : List Part) → AllCalm cast → IsPlaced rows place cast → HasPools pools place
        → AreSeated (sheet (scene_of cast)) rows cast
        → BeginsWith (start_history rows) rows place cast (start_table (keepers_at cast))
        × ((k : ℕ) → IsPool (start_table (keepers_at cast)) k (place_sizes place k)) }
    ensures few { (rows : List QueueRow) (pools : List PoolRow) (cast : List Part)
        → AllCalm cast → ArePooled rows pools cast → AreSeated (sheet (scene_of cast)) rows cast
        → length rows ≤ 65536 → length pools ≤ 65536 }
    ensures kinds { (history : History) (rows : List QueueRow) (actors : List Actor)
        (journal : List Entry) (passed : Passed) (world : List Queue)
        → AreAtPlay history rows actors journal passed world
        → EachMoment (AreKindly history rows) journal }
{}
