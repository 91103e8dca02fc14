//! The table of the network's sending virtualiser for clients of both sorts, by the names that are
//! told of the pages of its hostile clients' entries: its needs follow from it, it stays as more
//! names are told, the virtualiser's own row says it, and it is the table without names where no
//! client is hostile.

ghost use Rattle.std.specs.Prelude.{◌≡◌, ◌++◌, ℕ, List, []};
ghost use Rattle.cargo_core.specs.Lists.{IsPrefix};
ghost use Rattle.wire_core.specs.declared.names.Entry.{Entry};
ghost use Rattle.wire_core.specs.declared.names.QueueRow.{QueueRow};
ghost use Rattle.wire_core.specs.Journal.{EachMoment, History, Hostiles};
ghost use Rattle.wire_core.specs.Lists.{Passed};
ghost use Rattle.wire_core.specs.Picks.{PickedFrom};
ghost use Rattle.wire_core.specs.Queues.{Queue, end_at};
ghost use Rattle.turn_kit.specs.Turns.{is_at_rest};
ghost use Rattle.play_core.specs.Manners.{Manners};
ghost use Rattle.play_core.specs.Moved.{Moved, moved};
ghost use Rattle.play_core.specs.Names.{Names, GrowsTo, Wild, names_at};
ghost use Rattle.play_core.specs.Growing.{AllWithin, RowsStandIn, Stays, runs_in};
ghost use Rattle.play_core.specs.Rests.Showing.{HaveBells, HaveItems};
ghost use Rattle.play_core.specs.Sheets.{IsOwn, NeedsFollow};
ghost use Rattle.play_core.specs.Wants.{all_settled};
ghost use Rattle.net_virt_tx.specs.declared.NetVirtTx.{NetVirtTx};
ghost use Rattle.net_virt_tx.specs.Sending.{FitsTx, TxRow, TxStandsFor, tx_round};
ghost use Rattle.net_law.specs.Owners.Ends.{AreItemsOf};
ghost use Rattle.net_law.specs.Receiving.{HandsOver};
ghost use Rattle.net_law.specs.TxParts.Parts.{SendPart, Shipper};
ghost use Rattle.net_law.specs.TxParts.Playing.{send_part};
ghost use Rattle.net_law.specs.TxParts.Table.{send_sheet};
ghost use Rattle.net_law.specs.TxScene.Playing.{CalmGood, ReturnsGood, TellsBack, TellsOf};
ghost use Rattle.net_law.specs.TxScene.Table.{LiesWithin, NoneWild, both_sheet};

/// Whatever names are told, what is said of the virtualiser speaks of its own ends alone, and an
/// output is owed exactly where its row would still hold after one more put there.
pub fn table_law()
    ensures own { (wild : Wild) (names : Names) (p : SendPart) → IsOwn (both_sheet wild names p) }
    ensures follow { (wild : Wild) (names : Names) (p : SendPart)
        → NeedsFollow (both_sheet wild names p) }
{}

/// Where all that passed at the hostile clients' queues has a name that is told, the same is said
/// as more names are told: row, wants and numbers that are due, the picks of a seed, and the rows
/// at each moment of a journal.
pub fn grow_law()
    ensures stays { (wild : Wild) → Stays (both_sheet wild) (LiesWithin wild) }
    ensures picked { (wild : Wild) (names grown : Names) → GrowsTo names grown
        → (history : History) (cast : List SendPart) (manner : Manners) (rows : List QueueRow)
        (seed : ℕ) (before es : List Entry)
        → ((some rest : List Entry) → some ++ rest ≡ before ++ es
        → AllWithin (LiesWithin wild) names history cast some)
        → PickedFrom (runs_in (both_sheet wild) names manner history rows cast) seed before es
        → PickedFrom (runs_in (both_sheet wild) grown manner history rows cast) seed before es }
    ensures rows { (wild : Wild) (names grown : Names) → GrowsTo names grown
        → (history : History) (cast : List SendPart) (hostile : Hostiles) (journal : List Entry)
        → EachMoment (AllWithin (LiesWithin wild) names history cast) journal
        → EachMoment (RowsStandIn (both_sheet wild) names hostile history cast) journal
        → EachMoment (RowsStandIn (both_sheet wild) grown hostile history cast) journal }
{}

/// The names of a moment tell of all that passed at the hostile clients' queues, where queues hand
/// over in order.
pub fn moment_law()
    ensures came { (wild : Wild) (passed : Passed) → HandsOver passed → (clients : List Shipper)
        → TellsOf wild (names_at passed) clients passed }
    ensures back { (wild : Wild) (passed : Passed) (clients : List Shipper)
        → TellsBack wild (names_at passed) clients passed }
    ensures within { (wild : Wild) (p : SendPart) (passed : Passed) (m : Moved) → HandsOver passed
        → AreItemsOf (both_sheet wild (names_at passed) p).ends passed m
        → LiesWithin wild (names_at passed) p m }
{}

/// The virtualiser's row, of entries with their bodies, says of items and names what the table
/// says, whatever its hostile clients put, where nothing came out of turn.
pub fn row_law()
    ensures { (wild : Wild) (names : Names) (v : NetVirtTx) (passed : Passed) (m : Moved)
        → AreItemsOf (both_sheet wild names (send_part v)).ends passed m
        → TellsOf wild names (send_part v).clients passed → CalmGood wild v passed
        → (row : TxRow v passed) → row.stray ≡ [] → (both_sheet wild names (send_part v)).row m }
{}

/// A virtualiser that fits the queues as history and journal show them, and stands for the entries
/// that passed, of which none came out of turn, is at rest exactly where all that the table wants
/// is settled, where what came back from the driver for hostile clients is as it was sent.
pub fn rest_law()
    ensures { (wild : Wild) (names : Names) (history : History) (journal : List Entry)
        (world : List Queue) (passed : Passed) → HaveItems passed (moved history journal)
        → HaveBells world history journal
        → (v : NetVirtTx) → TellsOf wild names (send_part v).clients passed
        → TellsBack wild names (send_part v).clients passed → CalmGood wild v passed
        → ReturnsGood wild v passed → ((row : TxRow v passed) → row.stray ≡ [])
        → FitsTx (end_at world) v → TxStandsFor v passed
        → is_at_rest (tx_round v) ≡ all_settled history journal
        ((both_sheet wild names (send_part v)).wants (moved history journal)) }
{}

/// Where no client is hostile, the table says what the one without names says.
pub fn calm_law()
    ensures row { (wild : Wild) (names : Names) (p : SendPart) (m : Moved) → NoneWild wild p
        → (both_sheet wild names p).row m → (send_sheet p).row m }
    ensures back { (wild : Wild) (names : Names) (p : SendPart) (m : Moved) → NoneWild wild p
        → (send_sheet p).row m → (both_sheet wild names p).row m }
    ensures wants { (wild : Wild) (names : Names) (p : SendPart) (m : Moved) → NoneWild wild p
        → (both_sheet wild names p).wants m ≡ (send_sheet p).wants m }
    ensures dues { (wild : Wild) (names : Names) (p : SendPart) (m : Moved) → NoneWild wild p
        → (both_sheet wild names p).dues m ≡ (send_sheet p).dues m }
{}
