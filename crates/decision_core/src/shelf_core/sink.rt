//! Where the answer goes.
ghost use Rattle.std.specs.Prelude.{◌≡◌, ◌≤◌, ℕ, List, [], Option, length, take, OnOk, OnErr, IfOk};
ghost use Rattle.std.specs.Prelude.{Bool, false};
ghost use Rattle.decision_core.specs.ShelfCore.Outside.{FailsLast, appended};

use crate::shelf_core::Failed;

/// A place to which a text is written.
pub trait Sink {
    /// The bytes that were written, where the sink tells them.
    ghost written: { Self → Option (List ℕ) };

    /// How many calls failed. The count stands still at the end of its type, 2^64 - 1.
    ghost faults: { Self → ℕ };

    /// Whether the last call failed.
    ghost failed: { Self → Bool };

    /// Writes the first bytes of a piece, and answers how many: at least one where the piece has
    /// any. After `Failed` nothing of the piece was written.
    fn write(&mut self, from: &[u8]) -> Result<usize, Failed>
        ensures rising { faults self.old ≤ faults self.new }
        ensures bound { IfOk result (λ n. n ≤ length from.now) }
        ensures progress { IfOk result (λ n. n ≡ 0 → from.now ≡ []) }
        ensures appends { IfOk result (λ n. written self.new
            ≡ appended (written self.old) (take n from.now)) }
        ensures calm { OnOk result (faults self.new ≡ faults self.old) }
        ensures passed { OnOk result (failed self.new ≡ false) }
        ensures fault { OnErr result (FailsLast (faults self.old) (faults self.new)
            (failed self.new)) }
        ensures unwritten { OnErr result (written self.new ≡ written self.old) };
}
