//! Which calls of a shelf or a sink in memory fail, and how many bytes one moves at most.
ghost use Rattle.std.specs.Prelude.{◌≡◌, ◌≤◌, ◌∷◌, ◌++◌, [], false, OnOk, OnErr};
ghost use Rattle.decision_core.specs.ShelfCore.FaultPlans.{unplanned, is_due};
ghost use Rattle.decision_core.specs.ShelfCore.Outside.{one_more, FailsLast};

use crate::shelf_core::Failed;
use crate::shelf_core::faults::Faults;
use cargo_core::Memory;
use std::alloc::Global;
use std::marker::Model;

/// What a shelf or a sink in memory was told, and what it counts: its calls from 0, and its faults.
/// Until it is told, no call fails, and a call moves as many bytes as it can.
#[derive(Drop)]
pub struct FaultPlan {
    calls: u64,
    failing: Vec<u64>,
    piece: usize,
    faults: Faults,
}

impl Model for FaultPlan {
    ghost use Rattle.decision_core.specs.ShelfCore.FaultPlans.{Planned};

    ghost Value = { Planned };

    ghost view = { λ s. record {
      calls = s.calls;
      failing = s.failing.items;
      piece = s.piece;
      faults = s.faults.count;
      failed = s.faults.last;
    } };
}

impl FaultPlan {
    /// No call fails. It takes no memory.
    pub fn new(alloc: Global) -> FaultPlan
        ensures { result ≡ unplanned }
    {
        FaultPlan {
            calls: 0,
            failing: Vec::new(alloc),
            piece: usize::MAX,
            faults: Faults::new(),
        }
    }

    /// Fails the call of this number.
    pub fn fail_at(&mut self, call: u64) -> Result<(), Memory>
        ensures ok { OnOk result (self.new
            ≡ record self.old { failing = self.old.failing ++ call ∷ [] }) }
        ensures err { OnErr result (self.new ≡ self.old) }
    {
        self.failing.push(call)?;
        Ok(())
    }

    /// Moves at most so many bytes in one call.
    pub fn set_piece(&mut self, most: usize)
        ensures { self.new ≡ record self.old { piece = most } }
    {
        self.piece = most;
    }

    /// How many bytes are moved in one call at most.
    pub fn piece(&self) -> usize
        ensures { result ≡ self.now.piece }
    {
        self.piece
    }

    /// Counts a call, and tells whether it fails.
    pub fn is_failing(&mut self) -> bool
        ensures due { result ≡ is_due self.old }
        ensures counted { self.new
            ≡ record self.old { calls = one_more self.old.calls; failed = false } }
    {
        self.faults.pass();
        let fails = self.failing.contains(&self.calls);
        self.calls = self.calls.saturating_add(1);
        fails
    }

    /// Counts a fault.
    pub fn fail(&mut self) -> Failed
        ensures same { self.new
            ≡ record self.old { faults = self.new.faults; failed = self.new.failed } }
        ensures fails { FailsLast self.old.faults self.new.faults self.new.failed }
        ensures rising { self.old.faults ≤ self.new.faults }
    {
        self.faults.fail()
    }
}
