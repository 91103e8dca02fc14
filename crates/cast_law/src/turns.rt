//! What comes in turn at the actors of a cast, whatever its hostile clients put.

ghost use Rattle.std.specs.Prelude.{◌≡◌, ℕ, Some, List, map, slice_get};
ghost use Rattle.wire_core.specs.declared.names.PoolRow.{PoolRow};
ghost use Rattle.wire_core.specs.declared.names.QueueRow.{QueueRow};
ghost use Rattle.wire_core.specs.Ends.{Role, End};
ghost use Rattle.wire_core.specs.Lists.{Passed};
ghost use Rattle.play_core.specs.Moved.{Moved};
ghost use Rattle.play_core.specs.Names.{AreNoted, Names, Noted, Wild, told_by, wild_in};
ghost use Rattle.play_core.specs.Rests.Showing.{HaveItems};
ghost use Rattle.play_core.specs.Sheets.{RowsHold};
ghost use Rattle.actor_set.specs.Parts.{Part};
ghost use Rattle.actor_set.specs.Actors.{part_of};
ghost use Rattle.actor_set.specs.declared.actor.Actor.{Actor};
ghost use Rattle.actor_set.specs.Laws.Kinds.{AllCalm, hostiles, scene_of};
ghost use Rattle.actor_set.specs.Laws.Scenes.{LiesWithin, ToldInTurn, told_sheet};
ghost use Rattle.actor_set.specs.Laws.Turning.{InTurn};
ghost use Rattle.wired_law.specs.Wiring.{AreAtWork, AreInTurn, ClientsSend, TellsKept};
ghost use Rattle.cast_law.specs.Pools.Places.{IsInPlace};

/// Of one moment's lists alone: where actors in place are at work, each buffer is there once, so
/// nothing comes out of turn, whichever clients may be hostile and whatever they put. By the names
/// that are told nothing does at any actor, where clients that aren't hostile put good descriptors
/// and requests alone; so the rows of all actors that aren't hostile hold by these names, and stay
/// as more are told, for what is asked of them is told. Names that are kept in the order of the
/// puts tell enough. Where nobody is hostile no name is asked.
pub fn cast_turn_law()
    ensures beside { (ends : Role → ℕ → End) (rows : List QueueRow) (pools : List PoolRow)
        (actors : List Actor) (passed : Passed) → IsInPlace rows pools (map part_of actors)
        → AreAtWork ends rows actors passed → (wild : Wild) → AreInTurn wild actors passed }
    ensures told { (ends : Role → ℕ → End) (rows : List QueueRow) (pools : List PoolRow)
        (actors : List Actor) (passed : Passed) (names : Names)
        → IsInPlace rows pools (map part_of actors) → AreAtWork ends rows actors passed
        → ClientsSend rows (map part_of actors) passed
        → TellsKept (wild_in (hostiles (map part_of actors)) rows) names passed
        → (k : ℕ) (x : Actor) → slice_get actors k ≡ Some x
        → ToldInTurn (scene_of (map part_of actors))
        (wild_in (hostiles (map part_of actors)) rows) names x passed }
    ensures rows { (ends : Role → ℕ → End) (rows : List QueueRow) (pools : List PoolRow)
        (actors : List Actor) (passed : Passed) (names : Names) (m : Moved)
        → IsInPlace rows pools (map part_of actors) → AreAtWork ends rows actors passed
        → ClientsSend rows (map part_of actors) passed
        → TellsKept (wild_in (hostiles (map part_of actors)) rows) names passed
        → HaveItems passed m → RowsHold (told_sheet (scene_of (map part_of actors))
        (wild_in (hostiles (map part_of actors)) rows) names) (hostiles (map part_of actors))
        (map part_of actors) m }
    ensures within { (ends : Role → ℕ → End) (rows : List QueueRow) (pools : List PoolRow)
        (actors : List Actor) (passed : Passed) (names : Names) (m : Moved)
        → IsInPlace rows pools (map part_of actors) → AreAtWork ends rows actors passed
        → ClientsSend rows (map part_of actors) passed
        → TellsKept (wild_in (hostiles (map part_of actors)) rows) names passed
        → HaveItems passed m → (k : ℕ) (p : Part) → slice_get (map part_of actors) k ≡ Some p
        → LiesWithin (wild_in (hostiles (map part_of actors)) rows) names p m }
    ensures noted { (wild : Wild) (notes : List Noted) (passed : Passed)
        → AreNoted wild notes passed → TellsKept wild (told_by notes) passed }
    ensures calm { (ends : Role → ℕ → End) (rows : List QueueRow) (pools : List PoolRow)
        (actors : List Actor) (passed : Passed) → AllCalm (map part_of actors)
        → IsInPlace rows pools (map part_of actors) → AreAtWork ends rows actors passed
        → ClientsSend rows (map part_of actors) passed → (k : ℕ) (x : Actor)
        → slice_get actors k ≡ Some x → InTurn (scene_of (map part_of actors)) x passed }
{}
