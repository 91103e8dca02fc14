//! Where texts come from.
ghost use Rattle.std.specs.Prelude.{◌≡◌, ◌≤◌, ℕ, List, Option, length, drop, OnOk, OnErr, IfOk};
ghost use Rattle.std.specs.Prelude.{IfSome, Bool, false};
ghost use Rattle.std.specs.Option.{option_map};
ghost use Rattle.decision_core.specs.ShelfCore.Outside.{FailsLast, GivesNext, IsAtEnd, also_opened};

/// The outside failed: a file, a stream.
#[derive(Clone, Copy, Debug, PartialEq, Eq)]
pub struct Failed;

/// A place from which texts are read, one at a time.
pub trait Shelf {
    /// The bytes that stand under a name, where the shelf tells them. No call changes it.
    ghost text: { Self → List ℕ → Option (List ℕ) };

    /// The bytes of the open text that aren't yet read, where the shelf tells them. With no text
    /// open there are none.
    ghost left: { Self → Option (List ℕ) };

    /// The names of the texts that were opened so far, in order, where the shelf tells them. A text
    /// that couldn't be opened is among them.
    ghost opens: { Self → Option (List (List ℕ)) };

    /// How many calls failed. The count stands still at the end of its type, 2^64 - 1.
    ghost faults: { Self → ℕ };

    /// Whether the last call failed.
    ghost failed: { Self → Bool };

    /// Begins the text of a name. A name that isn't there is a fault. After `Failed` no text is
    /// open.
    fn open(&mut self, name: &str) -> Result<(), Failed>
        ensures texts { (n : List ℕ) → text self.new n ≡ text self.old n }
        ensures rising { faults self.old ≤ faults self.new }
        ensures opens { opens self.new ≡ also_opened (opens self.old) name.now }
        ensures opened { OnOk result (left self.new ≡ text self.old name.now) }
        ensures calm { OnOk result (faults self.new ≡ faults self.old) }
        ensures passed { OnOk result (failed self.new ≡ false) }
        ensures fault { OnErr result (FailsLast (faults self.old) (faults self.new)
            (failed self.new)) }
        ensures ended { OnErr result (IsAtEnd (left self.new)) };

    /// Gives the next bytes of the text that was opened last, and how many they are. After `Failed`
    /// no text is open.
    fn read(&mut self, into: &mut [u8]) -> Result<usize, Failed>
        ensures texts { (n : List ℕ) → text self.new n ≡ text self.old n }
        ensures rising { faults self.old ≤ faults self.new }
        ensures opens { opens self.new ≡ opens self.old }
        ensures bound { IfOk result (λ n. n ≤ length into.new) }
        ensures bytes { IfOk result (λ n. IfSome (left self.old) (λ l. GivesNext l n into.new)) }
        ensures rest { IfOk result (λ n. left self.new ≡ option_map (drop n) (left self.old)) }
        ensures calm { OnOk result (faults self.new ≡ faults self.old) }
        ensures passed { OnOk result (failed self.new ≡ false) }
        ensures fault { OnErr result (FailsLast (faults self.old) (faults self.new)
            (failed self.new)) }
        ensures ended { OnErr result (IsAtEnd (left self.new)) };
}
