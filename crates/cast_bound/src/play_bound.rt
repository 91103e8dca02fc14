//! How long a play is at most, apart from any system: the budget that is computed from a plan and
//! its trace is more than the calls that are made.

ghost use Rattle.std.specs.Prelude.{◌<◌, ◌≤◌, ◌+◌, ℕ, List, [], length};
ghost use Rattle.wire_core.specs.declared.names.Entry.{Entry};
ghost use Rattle.wire_core.specs.Journal.{History, Hostiles, LegalJournal, BellsHold, QueuesFlow};
ghost use Rattle.wire_core.specs.Marks.{Drops, Brisk, AreOwned, all_sent, dropped};
ghost use Rattle.step_bound.specs.Calm.{AreCalm};
ghost use Rattle.play_core.specs.Moved.{moved};
ghost use Rattle.sdf_plan.specs.declared.plan.Plan.{Plan};
ghost use Rattle.sdf_check.specs.Valid.{Valid};
ghost use Rattle.trace_text.specs.declared.trace.Trace.{Trace};
ghost use Rattle.region_layout.specs.Rows.{queues_of, actors_of};
ghost use Rattle.expect_core.specs.Budgets.{counts_of, hops_of, budget_of};
ghost use Rattle.cast_bound.specs.PlayBound.Standing.{NetMoves, SerialMoves, BlkMoves};

/// Where no more was put to the queues of a plan, and dropped, than the hops that its budget counts,
/// a journal that is legal and brisk is shorter than the budget. No more is put and dropped where
/// each class that the plan has puts, and drops, no more than its entries have to be moved: so many
/// frames are dropped in the network and so many bytes in the serial class.
pub fn bound_law()
    ensures bounded { (plan : Plan) (trace : Trace) (hostile : Hostiles) (history : History)
        (journal : List Entry) (drops : Drops) → Valid plan → AreCalm hostile (queues_of plan)
        → BellsHold hostile history (queues_of plan) []
        → QueuesFlow history (queues_of plan) []
        → LegalJournal hostile history (queues_of plan) journal
        → Brisk hostile (queues_of plan) drops journal
        → AreOwned (queues_of plan) (length (actors_of plan))
        → all_sent history (queues_of plan) journal + dropped drops journal
        ≤ hops_of (counts_of plan trace)
        → length journal < budget_of plan trace }
    ensures classes { (plan : Plan) (trace : Trace) (history : History) (journal : List Entry)
        (frames bytes : ℕ) → NetMoves plan trace frames (moved history journal)
        → SerialMoves plan trace bytes (moved history journal)
        → BlkMoves plan trace (moved history journal)
        → all_sent history (queues_of plan) journal + (frames + bytes)
        ≤ hops_of (counts_of plan trace) }
{}
