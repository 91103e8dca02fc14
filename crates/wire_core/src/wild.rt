//! The one call more that a hostile end has.
ghost use Rattle.std.specs.Prelude.{◌≡◌, ℕ};
ghost use Rattle.wire_core.specs.Ends.{Role, End, Moves};
ghost use Rattle.wire_core.specs.Deeds.{Deed, plain_deed};

use crate::{Op, QueueId, Wires};
use cargo_core::Word;

/// The calls, with one more, for ends that keep no promise: a store of any value into any word of a
/// wild queue. The index words hold the value modulo 65,536, the others modulo 2.
pub trait WildWires: Wires {
    /// The queue is one on which words may be stored. No call changes which are.
    ghost wild: { Self → ℕ → Type 0 };

    /// Stores a value in a word of a queue. It changes nothing that the owner of an end knows.
    fn store(&mut self, q: QueueId, word: Word, value: u64)
        requires { wild self.old q.0 }
        ensures did { Self.did self.old (plain_deed q (Op.Store word value)) self.new }
        ensures ends { Moves (Self.ends self.old) (plain_deed q (Op.Store word value)).event
            (Self.ends self.new) };

    /// Each call leaves wild what is wild.
    ghost stays: { (old new : Self) (d : Deed) (n : ℕ) → Self.did old d new → wild old n
        → wild new n };
}
