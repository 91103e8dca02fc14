//! The actors of all kinds by the names that are told of pages, where clients of the virtualisers
//! may be hostile: what is said of a part, that it stays as more names are told, and that an actor
//! keeps it.

ghost use Rattle.std.specs.Prelude.{◌≡◌, ◌++◌, ℕ, List};
ghost use Rattle.wire_core.specs.declared.names.Entry.{Entry};
ghost use Rattle.wire_core.specs.declared.names.QueueRow.{QueueRow};
ghost use Rattle.wire_core.specs.Journal.{EachMoment, History, Hostiles};
ghost use Rattle.wire_core.specs.Lists.{Passed};
ghost use Rattle.wire_core.specs.Picks.{PickedFrom};
ghost use Rattle.wire_core.specs.Queues.{Queue, end_at};
ghost use Rattle.play_core.specs.Growing.{AllWithin, RowsStandIn, Stays, runs_in};
ghost use Rattle.play_core.specs.Manners.{Calm, Manners};
ghost use Rattle.play_core.specs.Moved.{Moved, moved};
ghost use Rattle.play_core.specs.Names.{GrowsTo, Names, Wild, names_at, wild_in};
ghost use Rattle.play_core.specs.Rests.Showing.{HaveBells, HaveItems};
ghost use Rattle.play_core.specs.Runs.{runnable};
ghost use Rattle.play_core.specs.Sheets.{IsOwn, Scene, needful};
ghost use Rattle.play_core.specs.Wants.{all_settled};
ghost use Rattle.net_law.specs.Receiving.{HandsOver};
ghost use Rattle.actor_set.specs.Actors.{ActorStandsFor, FitsActor, actor_rests, part_of};
ghost use Rattle.actor_set.specs.Laws.Kinds.{AllCalm, hostiles, manner_of, sheet};
ghost use Rattle.actor_set.specs.Laws.Scenes.{LiesWithin, NoneWild, ToldInTurn, told_sheet};
ghost use Rattle.actor_set.specs.Parts.{Part};
ghost use Rattle.actor_set.specs.declared.actor.Actor.{Actor};

/// What is said of a part by the names that are told speaks of its own ends alone, and stays as
/// more names are told, where those of what passed are told; so do the picks of a seed, and the
/// rows at each moment of a journal. The names of all that was put by a moment are enough. And
/// where no client is hostile, it is what is said without names.
pub fn scene_law()
    ensures own { (scene : Scene) (wild : Wild) (names : Names) (p : Part)
        → IsOwn (told_sheet scene wild names p) }
    ensures stays { (scene : Scene) (wild : Wild)
        → Stays (told_sheet scene wild) (LiesWithin wild) }
    ensures picked { (scene : Scene) (wild : Wild) (names grown : Names) → GrowsTo names grown
        → (history : History) (cast : List Part) (manner : Manners) (rows : List QueueRow)
        (seed : ℕ) (before es : List Entry)
        → ((some rest : List Entry) → some ++ rest ≡ before ++ es
        → AllWithin (LiesWithin wild) names history cast some)
        → PickedFrom (runs_in (told_sheet scene wild) names manner history rows cast) seed before es
        → PickedFrom (runs_in (told_sheet scene wild) grown manner history rows cast) seed before
        es }
    ensures rows { (scene : Scene) (wild : Wild) (names grown : Names) → GrowsTo names grown
        → (history : History) (cast : List Part) (hostile : Hostiles) (journal : List Entry)
        → EachMoment (AllWithin (LiesWithin wild) names history cast) journal
        → EachMoment (RowsStandIn (told_sheet scene wild) names hostile history cast) journal
        → EachMoment (RowsStandIn (told_sheet scene wild) grown hostile history cast) journal }
    ensures within { (wild : Wild) (p : Part) (passed : Passed) (m : Moved) → HandsOver passed
        → HaveItems passed m → LiesWithin wild (names_at passed) p m }
    ensures calm_row { (scene : Scene) (wild : Wild) (names : Names) (p : Part) (m : Moved)
        → NoneWild wild p → (told_sheet scene wild names p).row m → (sheet scene p).row m }
    ensures calm_back { (scene : Scene) (wild : Wild) (names : Names) (p : Part) (m : Moved)
        → NoneWild wild p → (sheet scene p).row m → (told_sheet scene wild names p).row m }
    ensures calm_wants { (scene : Scene) (wild : Wild) (names : Names) (p : Part) (m : Moved)
        → NoneWild wild p → (told_sheet scene wild names p).wants m ≡ (sheet scene p).wants m }
    ensures calm_dues { (scene : Scene) (wild : Wild) (names : Names) (p : Part) (m : Moved)
        → NoneWild wild p → (told_sheet scene wild names p).dues m ≡ (sheet scene p).dues m }
{}

/// Where nobody is hostile, no queue has a hostile end, and whichever names are told, who is
/// runnable by them is who is runnable without names.
pub fn calm_law()
    ensures none { (cast : List Part) (rows : List QueueRow) (p : Part) → AllCalm cast
        → NoneWild (wild_in (hostiles cast) rows) p }
    ensures runs { (scene : Scene) (names : Names) (manner : Manners) (history : History)
        (rows : List QueueRow) (cast : List Part) (journal : List Entry) → AllCalm cast
        → runs_in (told_sheet scene (wild_in (hostiles cast) rows)) names manner history rows cast
        journal ≡ runnable manner history rows
        (needful (sheet scene) cast (moved history journal)) journal }
{}

/// An actor of any kind, of whose clients some may be hostile: where it stands for its lists and
/// nothing came out of turn, the row that is said of its part holds of their items, and, where it
/// isn't hostile, it is at rest exactly where all that is wanted of it is settled.
pub fn told_law()
    ensures row { (scene : Scene) (wild : Wild) (names : Names) (a : Actor) (passed : Passed)
        (m : Moved) → ToldInTurn scene wild names a passed → ActorStandsFor a passed
        → HaveItems passed m → (told_sheet scene wild names (part_of a)).row m }
    ensures rests { (scene : Scene) (wild : Wild) (names : Names) (history : History)
        (journal : List Entry) (world : List Queue) (a : Actor) (passed : Passed)
        → manner_of (part_of a) ≡ Calm → ToldInTurn scene wild names a passed
        → FitsActor (end_at world) a
        → ActorStandsFor a passed → HaveItems passed (moved history journal)
        → HaveBells world history journal → actor_rests a ≡ all_settled history journal
        ((told_sheet scene wild names (part_of a)).wants (moved history journal)) }
{}
