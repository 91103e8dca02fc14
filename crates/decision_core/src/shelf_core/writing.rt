//! A text is written to a sink to its end.
ghost use Rattle.std.specs.Prelude.{◌≡◌, ◌≤◌, ℕ, List, OnOk, OnErr};
ghost use Rattle.cargo_core.specs.Lists.{IsPrefix};
ghost use Rattle.decision_core.specs.ShelfCore.Outside.{FailsLast, appended};

use crate::shelf_core::{Failed, Sink};

/// Writes a text to its end, in the pieces that the sink takes. After `Failed` a beginning of it is
/// written.
pub fn write_text<K: Sink>(sink: &mut K, text: &[u8]) -> Result<(), Failed>
    ensures ok { OnOk result (K.written sink.new ≡ appended (K.written sink.old) text.now) }
    ensures calm { OnOk result (K.faults sink.new ≡ K.faults sink.old) }
    ensures failed { OnErr result (FailsLast (K.faults sink.old) (K.faults sink.new)
        (K.failed sink.new)) }
    ensures begun { OnErr result ((begun : List ℕ) × IsPrefix begun text.now
        × (K.written sink.new ≡ appended (K.written sink.old) begun)) }
{
    let mut done = 0;
    while done < text.len() {
        done += sink.write(&text[done..])?;
    }
    Ok(())
}
