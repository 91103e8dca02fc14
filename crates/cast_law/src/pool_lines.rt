//! The lines of all pools in a report: what a program counts is what the table of owners says.

ghost use Rattle.std.specs.Prelude.{◌≡◌, ℕ, List};
ghost use Rattle.wire_core.specs.declared.names.PoolRow.{PoolRow};
ghost use Rattle.wire_core.specs.declared.names.QueueRow.{QueueRow};
ghost use Rattle.wire_core.specs.declared.names.Entry.{Entry};
ghost use Rattle.wire_core.specs.Journal.{History, Hostiles};
ghost use Rattle.wire_core.specs.Lists.{Passed};
ghost use Rattle.wire_core.specs.Queues.{Queue};
ghost use Rattle.owner_law.specs.Things.{Naming};
ghost use Rattle.owner_law.specs.Owners.{Table, replay};
ghost use Rattle.owner_law.specs.Pools.Lines.{Holder, AreLines};
ghost use Rattle.cast_law.specs.PoolLines.PoolLines.{table_lines, counted_lines, AreSized};

/// The lines that a program counts, of all pools by their numbers, are those of the table after the
/// journal.
pub fn lines_law()
    ensures { (naming : Naming) (lender : ℕ) (hostile : Hostiles) (history : History)
        (rows : List QueueRow) (sizes : ℕ → ℕ) (holders : List Holder) (start : Table)
        (journal : List Entry) (passed : Passed) (world : List Queue)
        → AreLines naming lender hostile history rows sizes holders start journal passed world
        → (pools : List PoolRow) → AreSized sizes 0 pools
        → counted_lines world holders 0 pools
        ≡ table_lines (replay naming history start journal) 0 pools }
{}
