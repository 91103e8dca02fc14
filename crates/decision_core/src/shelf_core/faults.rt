//! How often the outside failed, and whether it failed last.
ghost use Rattle.std.specs.Prelude.{◌≡◌, ◌≤◌, true, false};
ghost use Rattle.decision_core.specs.ShelfCore.Outside.{one_more, FailsLast};

use crate::shelf_core::Failed;

/// How many calls of an object failed, and whether the last one did. The count stands still at the
/// end of its type.
#[derive(Drop)]
pub struct Faults {
    pub count: u64,
    pub last: bool,
}

impl Faults {
    /// No call was made yet.
    pub fn new() -> Faults
        ensures count { result.count ≡ 0 }
        ensures last { result.last ≡ false }
    {
        Faults {
            count: 0,
            last: false,
        }
    }

    /// A call went well.
    pub fn pass(&mut self)
        ensures count { self.new.count ≡ self.old.count }
        ensures last { self.new.last ≡ false }
    {
        self.last = false;
    }

    /// A call failed.
    pub fn fail(&mut self) -> Failed
        ensures fails { FailsLast self.old.count self.new.count self.new.last }
        ensures rising { self.old.count ≤ self.new.count }
    {
        self.count = self.count.saturating_add(1);
        self.last = true;
        Failed
    }
}
