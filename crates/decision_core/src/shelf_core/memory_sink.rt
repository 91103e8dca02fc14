//! A sink in memory, which fails the calls that it is told to, and gets full.
ghost use Rattle.std.specs.Prelude.{◌≡◌, ◌≤◌, ◌∷◌, ◌++◌, [], length, OnOk, OnErr, IfOk};
ghost use Rattle.decision_core.specs.ShelfCore.FaultPlans.{unplanned};
ghost use Rattle.decision_core.specs.ShelfCore.Sunk.{bytes_taken};

use crate::shelf_core::fault_plan::FaultPlan;
use crate::shelf_core::{Failed, Sink};
use cargo_core::Memory;
use std::alloc::Global;
use std::marker::Model;

/// Bytes that were written to memory. It counts the calls of its trait from 0, and fails those that
/// it was told to, and each for which there is no room left. Until `piece` is called, a call takes
/// as many bytes as it can.
#[derive(Drop)]
pub struct MemSink {
    written: Vec<u8>,
    room: usize,
    plan: FaultPlan,
}

impl Model for MemSink {
    ghost use Rattle.std.specs.Prelude.{◌≤◌, vec_capacity};
    ghost use Rattle.decision_core.specs.ShelfCore.Sunk.{Sunk};

    ghost Value = { Sunk };

    ghost view = { λ s. record {
      written = s.written.items;
      room = s.room;
      plan = s.plan;
    } };

    ghost invariant = { λ s. s.room ≤ vec_capacity s.written };
}

impl MemSink {
    /// A sink with room for so many bytes.
    pub fn new(alloc: Global, room: usize) -> Result<MemSink, Memory>
        ensures written { IfOk result (λ s. s.written ≡ []) }
        ensures room { IfOk result (λ s. s.room ≡ room) }
        ensures plan { IfOk result (λ s. s.plan ≡ unplanned) }
    {
        Ok(MemSink {
            written: Vec::with_capacity(alloc, room)?,
            room,
            plan: FaultPlan::new(alloc),
        })
    }

    /// The bytes that were written.
    pub fn written(&self) -> &[u8]
        ensures { result.now ≡ self.now.written }
    {
        &self.written
    }

    /// Fails the call of this number.
    pub fn fail_at(&mut self, call: u64) -> Result<(), Memory>
        ensures ok { OnOk result (self.new ≡ record self.old {
          plan = record self.old.plan { failing = self.old.plan.failing ++ call ∷ [] };
        }) }
        ensures err { OnErr result (self.new ≡ self.old) }
    {
        self.plan.fail_at(call)
    }

    /// Takes at most so many bytes in one call.
    pub fn piece(&mut self, most: usize)
        requires { 1 ≤ most }
        ensures { self.new
            ≡ record self.old { plan = record self.old.plan { piece = most } } }
    {
        self.plan.set_piece(most);
    }

    /// How many bytes of a piece are taken now.
    fn taken_now(&self, from: &[u8]) -> usize
        ensures { result ≡ bytes_taken self.now (length from.now) }
    {
        let room = self.room.saturating_sub(self.written.len());
        from.len().min(room).min(self.plan.piece())
    }
}

impl Sink for MemSink {
    ghost use Rattle.std.specs.Prelude.{Some, is_ok, not, false, ◌&&◌, ◌||◌, ◌==◌, take};
    ghost use Rattle.decision_core.specs.ShelfCore.FaultPlans.{Counted, is_due};
    ghost use Rattle.decision_core.specs.ShelfCore.Outside.{FailsLast, appended};

    ghost written = { λ s. Some s.written };

    ghost faults = { λ s. s.plan.faults };

    ghost failed = { λ s. s.plan.failed };

    /// It counts the call, and fails where the call is listed, or nothing can be taken of a piece
    /// that has bytes. Else it takes as many bytes as it can, but no more than a piece.
    fn write(&mut self, from: &[u8]) -> Result<usize, Failed>
        ensures rising { self.old.plan.faults ≤ self.new.plan.faults }
        ensures bound { IfOk result (λ n. n ≤ length from.now) }
        ensures progress { IfOk result (λ n. n ≡ 0 → from.now ≡ []) }
        ensures appends { IfOk result (λ n. Some self.new.written
            ≡ appended (Some self.old.written) (take n from.now)) }
        ensures calm { OnOk result (self.new.plan.faults ≡ self.old.plan.faults) }
        ensures passed { OnOk result (self.new.plan.failed ≡ false) }
        ensures fault { OnErr result (FailsLast self.old.plan.faults self.new.plan.faults
            self.new.plan.failed) }
        ensures unwritten { OnErr result (Some self.new.written ≡ Some self.old.written) }
        ensures counted { Counted self.old.plan self.new.plan }
        ensures fails { is_ok result ≡ not (is_due self.old.plan
            || (bytes_taken self.old (length from.now) == 0 && not (length from.now == 0))) }
        ensures most { IfOk result (λ n. n ≡ bytes_taken self.old (length from.now)) }
        ensures room { self.new.room ≡ self.old.room }
    {
        let fails = self.plan.is_failing();
        let n = self.taken_now(from);
        if fails || (n == 0 && !from.is_empty()) {
            return Err(self.plan.fail());
        }
        match self.written.extend_from_slice(&from[..n]) {
            Ok(()) => Ok(n),
            Err(_) => unreachable!(),
        }
    }
}
