//! When the network's sending virtualiser is at rest, by the journal: exactly where all that its
//! sheet wants is settled.

ghost use Rattle.std.specs.Prelude.{◌≡◌, List, []};
ghost use Rattle.wire_core.specs.declared.names.Entry.{Entry};
ghost use Rattle.wire_core.specs.Lists.{Passed};
ghost use Rattle.wire_core.specs.Queues.{Queue, end_at};
ghost use Rattle.wire_core.specs.Journal.{History};
ghost use Rattle.turn_kit.specs.Turns.{is_at_rest};
ghost use Rattle.play_core.specs.Moved.{moved};
ghost use Rattle.play_core.specs.Wants.{all_settled};
ghost use Rattle.net_virt_tx.specs.Sending.{FitsTx, TxStandsFor, TxRow, tx_round};
ghost use Rattle.net_virt_tx.specs.declared.NetVirtTx.{NetVirtTx};
ghost use Rattle.net_law.specs.TxParts.Table.{send_sheet};
ghost use Rattle.net_law.specs.TxParts.Playing.{TakesGood, send_part};
ghost use Rattle.play_core.specs.Rests.Showing.{HaveItems, HaveBells};

/// A virtualiser that fits the queues as history and journal show them, and stands for the entries
/// that passed, of which each descriptor was good and none came out of turn, is at rest exactly
/// where all that its sheet wants is settled.
pub fn sender_rests_law()
    ensures { (history : History) (journal : List Entry) (world : List Queue) (passed : Passed)
        → HaveItems passed (moved history journal) → HaveBells world history journal
        → (v : NetVirtTx) → TakesGood v passed → ((row : TxRow v passed) → row.stray ≡ [])
        → FitsTx (end_at world) v → TxStandsFor v passed
        → is_at_rest (tx_round v) ≡ all_settled history journal
        ((send_sheet (send_part v)).wants (moved history journal)) }
{}
