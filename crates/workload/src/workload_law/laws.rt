//! Laws of the workload: what its description spells, and that its traces are traces.
ghost use Rattle.std.specs.Prelude.{◌≤◌, ℕ, length};
ghost use Rattle.sdf_check.specs.Valid.{Valid};
ghost use Rattle.sdf_model.specs.Counts.{text_most};
ghost use Rattle.sdf_model.specs.Spelled.{plan_of};
ghost use Rattle.sdf_model.specs.Tree.{IsDocument, BreaksText, places_of};
ghost use Rattle.sdf_plan.specs.Places.{KeepsRules};
ghost use Rattle.toml.specs.Data.{Members};
ghost use Rattle.trace_text.specs.Traces.{HasNoBadLine};
ghost use Rattle.workload.specs.declared.description.TheConstants.{FULL_EXAMPLE};
ghost use Rattle.workload.specs.Generated.{generated_text};
ghost use Rattle.workload.specs.WorkloadLaw.Clients.{HasClients};

use sdf_plan::Plan;

/// The full example is accepted: it isn't too long, it is a document, and it keeps the rules on
/// texts; the plan that it spells keeps the rules on plans, and has the clients that the generated
/// traces are for.
pub fn example_law()
    ensures short { length FULL_EXAMPLE.now ≤ text_most }
    ensures kept { KeepsRules (BreaksText FULL_EXAMPLE.now) (places_of FULL_EXAMPLE.now) 1 4 }
    ensures plan { (root : Members) × IsDocument FULL_EXAMPLE.now root × Valid (plan_of root)
        × HasClients (plan_of root) }
{}

/// Whatever the number, no line of the generated trace is bad for a plan with such clients, and the
/// trace isn't too long.
pub fn trace_law()
    ensures lines { (plan : Plan) (n : ℕ) → HasClients plan
        → HasNoBadLine plan (generated_text n) }
    ensures short { (n : ℕ) → length (generated_text n) ≤ text_most }
{}
