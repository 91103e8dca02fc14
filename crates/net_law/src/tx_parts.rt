//! The table of the network's sending virtualiser, apart from any system: what is said of it, that
//! its needs follow from it, and that its own row says it of items, where each descriptor that came
//! is good and nothing came out of turn.

ghost use Rattle.std.specs.Prelude.{◌≡◌, []};
ghost use Rattle.wire_core.specs.Lists.{Passed};
ghost use Rattle.play_core.specs.Moved.{Moved};
ghost use Rattle.play_core.specs.Sheets.{IsOwn, NeedsFollow};
ghost use Rattle.net_virt_tx.specs.declared.NetVirtTx.{NetVirtTx};
ghost use Rattle.net_virt_tx.specs.Sending.{TxRow};
ghost use Rattle.net_law.specs.Owners.Ends.{AreItemsOf};
ghost use Rattle.net_law.specs.TxParts.Parts.{SendPart};
ghost use Rattle.net_law.specs.TxParts.Table.{send_sheet};
ghost use Rattle.net_law.specs.TxParts.Playing.{TakesGood, send_part};

/// What is said of the virtualiser speaks of its own ends alone, and an output is owed exactly
/// where its row would still hold after one more put there.
pub fn table_law()
    ensures own { (p : SendPart) → IsOwn (send_sheet p) }
    ensures follow { (p : SendPart) → NeedsFollow (send_sheet p) }
{}

/// The virtualiser's row, of entries with their bodies, says of the items what the table says,
/// where it took good descriptors alone and nothing came out of turn.
pub fn row_law()
    ensures { (v : NetVirtTx) (passed : Passed) (m : Moved)
        → AreItemsOf (send_sheet (send_part v)).ends passed m → TakesGood v passed
        → (row : TxRow v passed) → row.stray ≡ [] → (send_sheet (send_part v)).row m }
{}
