//! The table of the block class where clients of the virtualiser may be hostile, by the names that
//! are told of the pages of their requests: needs follow from it, it stays as more names are told,
//! the virtualiser's own row says it, and it is the table without names where no client is
//! hostile.

ghost use Rattle.std.specs.Prelude.{◌≡◌, ◌++◌, ℕ, List};
ghost use Rattle.wire_core.specs.declared.names.Entry.{Entry};
ghost use Rattle.wire_core.specs.declared.names.QueueRow.{QueueRow};
ghost use Rattle.wire_core.specs.Journal.{EachMoment, History, Hostiles};
ghost use Rattle.wire_core.specs.Lists.{Passed};
ghost use Rattle.wire_core.specs.Picks.{PickedFrom};
ghost use Rattle.wire_core.specs.Queues.{Queue, end_at};
ghost use Rattle.turn_kit.specs.Turns.{is_at_rest};
ghost use Rattle.play_core.specs.Growing.{AllWithin, RowsStandIn, Stays, runs_in};
ghost use Rattle.play_core.specs.Manners.{Manners};
ghost use Rattle.play_core.specs.Moved.{Moved, moved};
ghost use Rattle.play_core.specs.Names.{GrowsTo, Names, Wild, names_at};
ghost use Rattle.play_core.specs.Rests.Showing.{HaveBells, HaveItems};
ghost use Rattle.play_core.specs.Sheets.{IsOwn, NeedsFollow, Scene};
ghost use Rattle.play_core.specs.Wants.{all_settled};
ghost use Rattle.blk_virt.specs.Virtualising.{BlkVirtRow, BlkVirtStandsFor, FitsBlkVirt};
ghost use Rattle.blk_virt.specs.Virtualising.{blk_virt_round};
ghost use Rattle.blk_virt.specs.declared.virtualiser.BlkVirt.{BlkVirt};
ghost use Rattle.net_law.specs.Owners.Ends.{AreItemsOf};
ghost use Rattle.net_law.specs.Receiving.{HandsOver};
ghost use Rattle.blk_law.specs.Sheets.Parts.{BlkPart};
ghost use Rattle.blk_law.specs.Sheets.Playing.{virt_part};
ghost use Rattle.blk_law.specs.Sheets.Table.{blk_sheet};
ghost use Rattle.blk_law.specs.VirtScene.Playing.{BothInTurn, TellsOf};
ghost use Rattle.blk_law.specs.VirtScene.Table.{LiesWithin, NoneWild, both_sheet};

/// Whatever names are told, what is said of an actor speaks of its own ends alone, and an output is
/// owed exactly where its row would still hold after one more put there.
pub fn table_law()
    ensures own { (scene : Scene) (wild : Wild) (names : Names) (p : BlkPart)
        → IsOwn (both_sheet scene wild names p) }
    ensures follow { (scene : Scene) (wild : Wild) (names : Names) (p : BlkPart)
        → NeedsFollow (both_sheet scene wild names p) }
{}

/// Where all that came from the hostile clients has a name that is told, the same is said as more
/// names are told: row, wants and numbers that are due, the picks of a seed, and the rows at each
/// moment of a journal.
pub fn grow_law()
    ensures stays { (scene : Scene) (wild : Wild)
        → Stays (both_sheet scene wild) (LiesWithin wild) }
    ensures picked { (scene : Scene) (wild : Wild) (names grown : Names) → GrowsTo names grown
        → (history : History) (cast : List BlkPart) (manner : Manners) (rows : List QueueRow)
        (seed : ℕ) (before es : List Entry)
        → ((some rest : List Entry) → some ++ rest ≡ before ++ es
        → AllWithin (LiesWithin wild) names history cast some)
        → PickedFrom (runs_in (both_sheet scene wild) names manner history rows cast) seed before es
        → PickedFrom (runs_in (both_sheet scene wild) grown manner history rows cast) seed before
        es }
    ensures rows { (scene : Scene) (wild : Wild) (names grown : Names) → GrowsTo names grown
        → (history : History) (cast : List BlkPart) (hostile : Hostiles) (journal : List Entry)
        → EachMoment (AllWithin (LiesWithin wild) names history cast) journal
        → EachMoment (RowsStandIn (both_sheet scene wild) names hostile history cast) journal
        → EachMoment (RowsStandIn (both_sheet scene wild) grown hostile history cast) journal }
{}

/// The names of a moment tell of all that came from the hostile clients, where queues hand over in
/// order.
pub fn moment_law()
    ensures came { (wild : Wild) (v : BlkVirt) (passed : Passed) → HandsOver passed
        → TellsOf wild (names_at passed) v passed }
    ensures within { (scene : Scene) (wild : Wild) (p : BlkPart) (passed : Passed) (m : Moved)
        → HandsOver passed
        → AreItemsOf (both_sheet scene wild (names_at passed) p).ends passed m
        → LiesWithin wild (names_at passed) p m }
{}

/// The virtualiser's row, of entries with their bodies, says of items and names what the table
/// says, whatever its hostile clients put, where nothing came out of turn.
pub fn row_law()
    ensures { (scene : Scene) (wild : Wild) (names : Names) (v : BlkVirt) (passed : Passed)
        (m : Moved) → BothInTurn wild scene.image v passed → TellsOf wild names v passed
        → AreItemsOf (both_sheet scene wild names (virt_part v)).ends passed m
        → BlkVirtRow v passed → (both_sheet scene wild names (virt_part v)).row m }
{}

/// A virtualiser that fits the queues as history and journal show them, and stands for the entries
/// that passed, of which none came out of turn, is at rest exactly where all that the table wants
/// is settled.
pub fn rest_law()
    ensures { (scene : Scene) (wild : Wild) (names : Names) (history : History)
        (journal : List Entry) (world : List Queue) (passed : Passed)
        → HaveItems passed (moved history journal) → HaveBells world history journal
        → (v : BlkVirt) → BothInTurn wild scene.image v passed → TellsOf wild names v passed
        → FitsBlkVirt (end_at world) v → BlkVirtStandsFor v passed
        → is_at_rest (blk_virt_round v) ≡ all_settled history journal
        ((both_sheet scene wild names (virt_part v)).wants (moved history journal)) }
{}

/// Where no client of an actor is hostile, the table says what the one without names says.
pub fn calm_law()
    ensures row { (scene : Scene) (wild : Wild) (names : Names) (p : BlkPart) (m : Moved)
        → NoneWild wild p → (both_sheet scene wild names p).row m → (blk_sheet scene p).row m }
    ensures back { (scene : Scene) (wild : Wild) (names : Names) (p : BlkPart) (m : Moved)
        → NoneWild wild p → (blk_sheet scene p).row m → (both_sheet scene wild names p).row m }
    ensures wants { (scene : Scene) (wild : Wild) (names : Names) (p : BlkPart) (m : Moved)
        → NoneWild wild p → (both_sheet scene wild names p).wants m ≡ (blk_sheet scene p).wants m }
    ensures dues { (scene : Scene) (wild : Wild) (names : Names) (p : BlkPart) (m : Moved)
        → NoneWild wild p → (both_sheet scene wild names p).dues m ≡ (blk_sheet scene p).dues m }
{}
