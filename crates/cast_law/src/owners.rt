//! The owners of a cast's buffers beside hostile clients: of all pools but theirs each buffer has its
//! one place at each moment, whatever hostile clients do.

ghost use Rattle.std.specs.Prelude.{◌≡◌, ℕ, true, false, Some, List, [], map};
ghost use Rattle.std.specs.Prelude.{slice_get};
ghost use Rattle.wire_core.specs.declared.names.PoolRow.{PoolRow};
ghost use Rattle.wire_core.specs.declared.names.QueueRow.{QueueRow};
ghost use Rattle.wire_core.specs.declared.names.Entry.{Entry};
ghost use Rattle.wire_core.specs.Journal.{History, EachMoment, LegalJournal, QueuesFlow};
ghost use Rattle.wire_core.specs.Journal.{start_history};
ghost use Rattle.wire_core.specs.Lists.{Passed};
ghost use Rattle.wire_core.specs.Queues.{Queue};
ghost use Rattle.play_core.specs.Moved.{moved};
ghost use Rattle.play_core.specs.Names.{wild_in};
ghost use Rattle.play_core.specs.Rests.Showing.{HaveItems};
ghost use Rattle.play_core.specs.Sheets.{AreSeated, AreFilled};
ghost use Rattle.owner_law.specs.Census.{IsPool, census};
ghost use Rattle.owner_law.specs.Keeping.{IsOwned, start_table};
ghost use Rattle.owner_law.specs.Owners.{OneOwner, Table, replay};
ghost use Rattle.actor_set.specs.Parts.{Part};
ghost use Rattle.actor_set.specs.Actors.{part_of};
ghost use Rattle.actor_set.specs.declared.actor.Actor.{Actor};
ghost use Rattle.actor_set.specs.Laws.Kinds.{AllCalm, hostiles, scene_of, sheet};
ghost use Rattle.cast_law.specs.PoolLines.PoolLines.{counted};
ghost use Rattle.cast_law.specs.Pools.Holders.{holders_of};
ghost use Rattle.cast_law.specs.Pools.Beside.{AllTold, CastCarries, is_rogues};
ghost use Rattle.cast_law.specs.Pools.Owning.{BeginsBeside, HasOwnersBeside, IsKeptBeside};
ghost use Rattle.cast_law.specs.Pools.Owning.{owner_keepers, owner_naming};
ghost use Rattle.cast_law.specs.Pools.Places.{HasPools, IsPlaced, PoolPlace, cast_naming};
ghost use Rattle.cast_law.specs.Pools.Places.{place_sizes};
ghost use Rattle.cast_law.specs.Pools.Pooling.{AreOverQueues, keepers_at};

/// At the start state a cast begins with a table of owners in which each buffer of a pool that isn't
/// a hostile client's has its place; whatever its history is, it has such a table. At a moment at
/// which entries carried what their items name, and nothing came out of turn, each actor that isn't
/// hostile put only what was in its hand; where that is so at each moment of a journal, one actor
/// owns each of those buffers at each moment, from any such table on, whatever hostile clients do;
/// and what a program counts of each of those pools is what the table says after the journal. Of a
/// hostile client's pool nothing is lent. Where nobody is hostile, the table is that of all pools.
pub fn owners_law()
    ensures anew { (rows : List QueueRow) (pools : List PoolRow) (place : PoolPlace)
        (cast : List Part) → IsPlaced rows place cast → HasPools pools place
        → AreSeated (sheet (scene_of cast)) rows cast → AreFilled (sheet (scene_of cast)) rows cast
        → BeginsBeside (start_history rows) rows place cast
        (start_table (owner_keepers rows place cast))
        × ((k : ℕ) → is_rogues (wild_in (hostiles cast) rows) place k ≡ false
        → IsPool (start_table (owner_keepers rows place cast)) k (place_sizes place k)) }
    ensures kept { (history : History) (rows : List QueueRow) (place : PoolPlace)
        (actors : List Actor) (journal : List Entry) (passed : Passed) (world : List Queue)
        → IsPlaced rows place (map part_of actors) → AreOverQueues rows actors passed world
        → AllTold rows actors passed → HaveItems passed (moved history journal)
        → CastCarries rows place actors (moved history journal) passed
        → QueuesFlow history rows journal
        → IsKeptBeside history rows place (map part_of actors) journal }
    ensures past { (history : History) (rows : List QueueRow) (pools : List PoolRow)
        (place : PoolPlace) (actors : List Actor) (passed : Passed) (world : List Queue)
        → IsPlaced rows place (map part_of actors) → HasPools pools place
        → AreOverQueues rows actors passed world → AllTold rows actors passed
        → HaveItems passed (moved history [])
        → CastCarries rows place actors (moved history []) passed → QueuesFlow history rows []
        → HasOwnersBeside history rows place (map part_of actors) }
    ensures owned { (history : History) (rows : List QueueRow) (place : PoolPlace)
        (actors : List Actor) (start : Table) (journal : List Entry) (passed : Passed)
        (world : List Queue) → AreOverQueues rows actors passed world
        → LegalJournal (hostiles (map part_of actors)) history rows journal
        → EachMoment (IsKeptBeside history rows place (map part_of actors)) journal
        → (begin : BeginsBeside history rows place (map part_of actors) start)
        → IsOwned (owner_naming rows place (map part_of actors)) begin.lender
        (hostiles (map part_of actors)) history rows
        (owner_keepers rows place (map part_of actors)) start journal }
    ensures owners { (history : History) (rows : List QueueRow) (place : PoolPlace)
        (actors : List Actor) (start : Table) (journal : List Entry) (passed : Passed)
        (world : List Queue) → AreOverQueues rows actors passed world
        → LegalJournal (hostiles (map part_of actors)) history rows journal
        → EachMoment (IsKeptBeside history rows place (map part_of actors)) journal
        → BeginsBeside history rows place (map part_of actors) start
        → EachMoment (OneOwner (owner_naming rows place (map part_of actors)) history start)
        journal }
    ensures lines { (history : History) (rows : List QueueRow) (pools : List PoolRow)
        (place : PoolPlace) (actors : List Actor) (start : Table) (journal : List Entry)
        (passed : Passed) (world : List Queue) → IsPlaced rows place (map part_of actors)
        → HasPools pools place → AreOverQueues rows actors passed world
        → AllTold rows actors passed → HaveItems passed (moved history journal)
        → CastCarries rows place actors (moved history journal) passed
        → LegalJournal (hostiles (map part_of actors)) history rows journal
        → EachMoment (IsKeptBeside history rows place (map part_of actors)) journal
        → BeginsBeside history rows place (map part_of actors) start → (k : ℕ) (row : PoolRow)
        → slice_get pools k ≡ Some row
        → is_rogues (wild_in (hostiles (map part_of actors)) rows) place k ≡ false
        → counted world (holders_of actors) (record { 0 = k })
        ≡ census (replay (owner_naming rows place (map part_of actors)) history start journal) k
        row.buffers }
    ensures unlent { (rows : List QueueRow) (pools : List PoolRow) (place : PoolPlace)
        (actors : List Actor) (world : List Queue) → IsPlaced rows place (map part_of actors)
        → HasPools pools place → (k : ℕ)
        → is_rogues (wild_in (hostiles (map part_of actors)) rows) place k ≡ true
        → (counted world (holders_of actors) (record { 0 = k })).lent ≡ 0 }
    ensures plain { (rows : List QueueRow) (place : PoolPlace) (cast : List Part) → AllCalm cast
        → ((n : ℕ) → owner_naming rows place cast n ≡ cast_naming (scene_of cast) place n)
        × (owner_keepers rows place cast ≡ keepers_at cast) }
{}
