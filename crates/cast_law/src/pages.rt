//! The buffers of a cast at play, one by one, whatever classes it has.

ghost use Rattle.std.specs.Prelude.{◌≡◌, ◌<◌, ◌≤◌, ℕ, Some, List, length, map, slice_get};
ghost use Rattle.wire_core.specs.declared.names.PoolRow.{PoolRow};
ghost use Rattle.wire_core.specs.declared.names.QueueRow.{QueueRow};
ghost use Rattle.wire_core.specs.declared.names.Entry.{Entry};
ghost use Rattle.wire_core.specs.Ends.{Role, End};
ghost use Rattle.wire_core.specs.Journal.{History};
ghost use Rattle.wire_core.specs.Lists.{Passed};
ghost use Rattle.wire_core.specs.Queues.{Queue};
ghost use Rattle.buffer_kit.specs.Conserving.{Count, counted, the_page, of_other_length};
ghost use Rattle.play_core.specs.Moved.{Moved, moved};
ghost use Rattle.play_core.specs.Sheets.{AreFilled, AreSeated};
ghost use Rattle.play_core.specs.Still.{IsPeopled};
ghost use Rattle.owner_law.specs.Pages.{CarryPages};
ghost use Rattle.owner_law.specs.Pools.Places.{PoolAt};
ghost use Rattle.wired_law.specs.PageLaw.Holders.{AreHeld};
ghost use Rattle.actor_set.specs.Parts.{Part};
ghost use Rattle.actor_set.specs.Actors.{part_of};
ghost use Rattle.actor_set.specs.declared.actor.Actor.{Actor};
ghost use Rattle.actor_set.specs.Laws.Kinds.{scene_of, sheet};
ghost use Rattle.wired_law.specs.Buffers.{HasEachOnce};
ghost use Rattle.wired_law.specs.Wiring.{AreAtWork};
ghost use Rattle.cast_law.specs.Pools.Places.{PoolPlace, IsPlaced, HasPools};
ghost use Rattle.cast_law.specs.Pools.Places.{cast_naming, place_pools, place_sizes};
ghost use Rattle.cast_law.specs.Pools.Beside.{CastCarries};
ghost use Rattle.cast_law.specs.Pools.Holders.{holders_of};
ghost use Rattle.cast_law.specs.Pools.Pooling.{AddUp, AreAtPlay, AreOverQueues};
ghost use Rattle.cast_law.specs.Pages.Paging.{page_holders, part_pools, pools_weigh};
ghost use Rattle.cast_law.specs.Pages.Paging.{cast_weighs, shown_bodies};

/// At a moment of a cast each actor conserves buffers one by one, whoever is hostile. Whatever is
/// counted of buffers by their pool, their number and their length, the queues and the actors have
/// what all buffers of the cast's pools weigh, each with its pool's length. So each buffer of each
/// pool is in one place and there once, and no buffer of a pool has another length than the pool's.
/// Where entries carry what their items name at all queues but those of hostile clients, it is in
/// what queues and actors show: in the queues, in hands, and lent; so the numbers of each pool's line
/// add up, those of hostile clients' pools too.
pub fn cast_page_law()
    ensures held { (rows : List QueueRow) (actors : List Actor) (passed : Passed)
        (world : List Queue) (over : AreOverQueues rows actors passed world)
        → AreHeld rows (page_holders (scene_of (map part_of actors)) actors passed over.stands)
        passed }
    ensures whole { (rows : List QueueRow) (actors : List Actor) (passed : Passed)
        (world : List Queue) → AreOverQueues rows actors passed world → (f : Count)
        → cast_weighs f passed world actors ≡ pools_weigh f (map part_of actors) }
    ensures shown { (history : History) (rows : List QueueRow) (actors : List Actor)
        (journal : List Entry) (passed : Passed) (world : List Queue)
        → AreAtPlay history rows actors journal passed world
        → (pools : List PoolRow) (place : PoolPlace) → IsPlaced rows place (map part_of actors)
        → HasPools pools place → CarryPages (cast_naming (scene_of (map part_of actors)) place)
        (moved history journal) passed → (f : Count)
        → counted f (shown_bodies world actors) ≡ pools_weigh f (map part_of actors) }
    ensures shown_beside { (rows : List QueueRow) (actors : List Actor) (passed : Passed)
        (world : List Queue) → AreOverQueues rows actors passed world → (place : PoolPlace)
        → IsPlaced rows place (map part_of actors) → (m : Moved)
        → CastCarries rows place actors m passed → (f : Count)
        → counted f (shown_bodies world actors) ≡ pools_weigh f (map part_of actors) }
    ensures add_up { (rows : List QueueRow) (actors : List Actor) (passed : Passed)
        (world : List Queue) → AreOverQueues rows actors passed world → (place : PoolPlace)
        → IsPlaced rows place (map part_of actors) → (m : Moved)
        → CastCarries rows place actors m passed → (pools : List PoolRow)
        → HasPools pools place → AddUp world (holders_of actors) pools }
    ensures once { (rows : List QueueRow) (actors : List Actor) (passed : Passed)
        (world : List Queue) → AreOverQueues rows actors passed world
        → (pools : List PoolRow) (place : PoolPlace) → IsPlaced rows place (map part_of actors)
        → HasPools pools place → (pool number : ℕ) → number < place_sizes place pool
        → cast_weighs (the_page (record { 0 = pool }) number) passed world actors ≡ 1 }
    ensures lengths { (rows : List QueueRow) (actors : List Actor) (passed : Passed)
        (world : List Queue) → AreOverQueues rows actors passed world
        → (pools : List PoolRow) (place : PoolPlace) → IsPlaced rows place (map part_of actors)
        → HasPools pools place → (i : ℕ) (p : Part) → slice_get (map part_of actors) i ≡ Some p
        → (j : ℕ) (q : PoolAt) → slice_get (part_pools p) j ≡ Some q → 1 ≤ q.buffers
        → cast_weighs (of_other_length (record { 0 = q.number }) q.size) passed world actors ≡ 0 }
    ensures all_lengths { (rows : List QueueRow) (actors : List Actor) (passed : Passed)
        (world : List Queue) → AreOverQueues rows actors passed world
        → (pools : List PoolRow) (place : PoolPlace) → IsPlaced rows place (map part_of actors)
        → HasPools pools place → (i : ℕ) (q : PoolAt) → slice_get (place_pools place) i ≡ Some q
        → 1 ≤ q.buffers
        → cast_weighs (of_other_length (record { 0 = q.number }) q.size) passed world actors ≡ 0 }
{}

/// Of one moment's lists alone, wherever actors at work have just the ends that the rows give them:
/// each buffer is there once, and those of block clients have their class's length. No journal is
/// asked, nor whether anything came out of turn, nor what the actors put, nor who is hostile.
pub fn cast_once_law()
    ensures { (ends : Role → ℕ → End) (rows : List QueueRow) (actors : List Actor)
        (passed : Passed) → IsPeopled rows (length (map part_of actors))
        → AreSeated (sheet (scene_of (map part_of actors))) rows (map part_of actors)
        → AreFilled (sheet (scene_of (map part_of actors))) rows (map part_of actors)
        → (pools : List PoolRow) (place : PoolPlace) → IsPlaced rows place (map part_of actors)
        → HasPools pools place → AreAtWork ends rows actors passed
        → HasEachOnce rows actors passed }
{}
