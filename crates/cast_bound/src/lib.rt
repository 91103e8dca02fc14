//! How long a play is at most: what the actors of a plan and a trace put to its queues, and drop,
//! is what the budget counts for them, and the calls of a play are fewer than that budget.
#![tactic(auto)]

ghost use Rattle.std.specs.Prelude.{◌≡◌, ◌<◌, Some, None, List, [], length};
ghost use Rattle.wire_core.specs.declared.names.Entry.{Entry};
ghost use Rattle.wire_core.specs.Journal.{History, LegalJournal, BellsHold, QueuesFlow};
ghost use Rattle.wire_core.specs.Marks.{Brisk};
ghost use Rattle.play_core.specs.Looks.{noes_together};
ghost use Rattle.play_core.specs.Moved.{moved};
ghost use Rattle.play_core.specs.Sheets.{RowsHold, Scene};
ghost use Rattle.play_core.specs.Still.{IsPeopled};
ghost use Rattle.sdf_plan.specs.declared.plan.Plan.{Plan};
ghost use Rattle.sdf_plan.specs.declared.plan.Net.{Net};
ghost use Rattle.sdf_plan.specs.declared.plan.Blk.{Blk};
ghost use Rattle.sdf_plan.specs.declared.plan.Serial.{Serial};
ghost use Rattle.sdf_check.specs.Valid.{Valid};
ghost use Rattle.trace_text.specs.declared.trace.Trace.{Trace};
ghost use Rattle.region_layout.specs.Rows.{queues_of, actors_of};
ghost use Rattle.expect_core.specs.Budgets.{budget_of};
ghost use Rattle.serial_law.specs.Serial.{SerialClass, IsSerial};
ghost use Rattle.serial_law.specs.Table.{serial_sheet};
ghost use Rattle.actor_set.specs.Parts.{Part};
ghost use Rattle.actor_set.specs.Laws.Kinds.{AllCalm, sheet, hostiles};
ghost use Rattle.wired_law.specs.Wiring.{HasWholeIn, HasBlkIn};
ghost use Rattle.cast_core.specs.Casts.{net_place, blk_place, scene_for};
ghost use Rattle.cast_bound.specs.Dropping.{drops_in, net_seats, serial_seats, line_seats};
ghost use Rattle.cast_bound.specs.Dropping.{plan_seats, DropOnlyAt};
ghost use Rattle.cast_bound.specs.PlayBound.Standing.{StandsFrom, Carries, serial_first, NetMoves};
ghost use Rattle.cast_bound.specs.PlayBound.Standing.{SerialMoves, BlkMoves};

pub mod play_bound;

/// Where no actor of a plan is hostile, their rows hold and its queues hand over in order, each
/// class puts no more to its queues than its entries have to be moved, the network and the serial
/// class with those that are dropped, as their ends looked in vain; so a journal that is legal and
/// brisk is shorter than the budget of plan and trace, where no actor drops elsewhere.
pub fn cast_bound_law()
    ensures network { (plan : Plan) (trace : Trace) (scene : Scene) (cast : List Part)
        (history : History) (journal : List Entry) → Valid plan → AllCalm cast
        → ((net : Net) → plan.net ≡ Some net
        → HasWholeIn scene (queues_of plan) (net_place plan trace) cast)
        → scene ≡ scene_for plan trace
        → QueuesFlow history (queues_of plan) journal
        → RowsHold (sheet scene) (hostiles cast) cast (moved history journal)
        → NetMoves plan trace
        (noes_together (net_seats (net_place plan trace)) (moved history journal))
        (moved history journal) }
    ensures block { (plan : Plan) (trace : Trace) (scene : Scene) (cast : List Part)
        (history : History) (journal : List Entry) → Valid plan → AllCalm cast
        → ((blk : Blk) → plan.blk ≡ Some blk
        → HasBlkIn scene (queues_of plan) (blk_place plan trace) cast)
        → QueuesFlow history (queues_of plan) journal
        → RowsHold (sheet scene) (hostiles cast) cast (moved history journal)
        → BlkMoves plan trace (moved history journal) }
    ensures serial { (plan : Plan) (trace : Trace) (cast : List Part) (history : History)
        (journal : List Entry) → QueuesFlow history (queues_of plan) journal
        → ((serial : Serial) → plan.serial ≡ Some serial → (class : SerialClass)
        × StandsFrom (serial_first plan.net) (length serial.client) class × Carries trace class
        × IsSerial (λ p. (serial_sheet p).row (moved history journal)) (hostiles cast)
        (queues_of plan) class × (serial_seats class ≡ line_seats plan))
        → SerialMoves plan trace (noes_together (line_seats plan) (moved history journal))
        (moved history journal) }
    ensures short { (plan : Plan) (trace : Trace) (cast : List Part) (history : History)
        (journal : List Entry) → Valid plan → AllCalm cast
        → length cast ≡ length (actors_of plan) → IsPeopled (queues_of plan) (length cast)
        → BellsHold (hostiles cast) history (queues_of plan) []
        → QueuesFlow history (queues_of plan) []
        → LegalJournal (hostiles cast) history (queues_of plan) journal
        → Brisk (hostiles cast) (queues_of plan) (drops_in cast) journal
        → DropOnlyAt (plan_seats plan trace) cast
        → NetMoves plan trace
        (noes_together (net_seats (net_place plan trace)) (moved history journal))
        (moved history journal)
        → SerialMoves plan trace (noes_together (line_seats plan) (moved history journal))
        (moved history journal)
        → BlkMoves plan trace (moved history journal) → length journal < budget_of plan trace }
{}
