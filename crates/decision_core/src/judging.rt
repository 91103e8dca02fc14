//! A description is judged by all rules.
ghost use Rattle.std.specs.Prelude.{◌≡◌, ◌≤◌, Err, IfOk, length};
ghost use Rattle.sdf_plan.specs.declared.place.Refusal.{Refusal};
ghost use Rattle.sdf_plan.specs.Elements.{IsNumbered};
ghost use Rattle.sdf_model.specs.Counts.{text_most};
ghost use Rattle.decision_core.specs.Judged.{IsAccepted, IsRefusedText};

use sdf_check::check;
use sdf_model::read_description;
use sdf_plan::{Plan, SdfFault};
use std::alloc::Global;

/// The plan of a description that breaks no rule. `Refused` has the least rule that is broken and
/// the first element that breaks it.
pub fn judge(alloc: Global, text: &[u8]) -> Result<Plan, SdfFault>
    requires { length text.now ≤ text_most }
    ensures accepted { IfOk result (IsAccepted text.now) }
    ensures numbered { IfOk result IsNumbered }
    ensures refused { (refusal : Refusal) → result ≡ Err (SdfFault.Refused refusal)
        → IsRefusedText text.now refusal }
{
    match read_description(alloc, text) {
        Ok(plan) => match check(alloc, &plan) {
            Ok(()) => Ok(plan),
            Err(fault) => {
                let_go(plan);
                Err(fault)
            }
        },
        Err(fault) => Err(fault),
    }
}

/// Lets a plan go. It has many parts, each of which is freed by itself: so this stands once.
pub fn let_go(_plan: Plan) {}
