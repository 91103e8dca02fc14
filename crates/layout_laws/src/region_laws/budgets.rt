//! That the step budget's formulas say what the tables of the layout say. They stand above both,
//! since neither needs the other.

ghost use Rattle.std.specs.Prelude.{◌≡◌, length};
ghost use Rattle.sdf_plan.specs.declared.plan.Plan.{Plan};
ghost use Rattle.trace_text.specs.declared.trace.Trace.{Trace};
ghost use Rattle.sdf_check.specs.Valid.{Valid};
ghost use Rattle.region_layout.specs.Rows as Layout;
ghost use Rattle.expect_core.specs.Budgets.{counts_of, actors_of, most_ends};
ghost use Rattle.layout_laws.specs.RegionLaws.Budgets.Ends.{IsMostEnds};

/// Of a valid plan, the number of actors on which the budget rests is that of the layout's actors,
/// and its greatest number of queue ends is that which one of them has at the layout's queues, and
/// none exceeds.
pub fn budget_law()
    ensures actors { (plan : Plan) (trace : Trace) → Valid plan
        → actors_of (counts_of plan trace) ≡ length (Layout.actors_of plan) }
    ensures ends { (plan : Plan) (trace : Trace) → Valid plan
        → IsMostEnds (Layout.queues_of plan) (length (Layout.actors_of plan))
        (most_ends (counts_of plan trace)) }
{}
