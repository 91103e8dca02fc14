//! Judges a description.
ghost use Rattle.std.specs.Prelude.{◌≤◌, IfOk, length};
ghost use Rattle.sdf_check.specs.Valid.{Valid};
ghost use Rattle.sdf_model.specs.Counts.{text_most};

use sdf_check::check;
use sdf_model::read_description;
use sdf_plan::{Plan, SdfFault};
use std::alloc::Global;

/// The plan of a description that breaks no rule.
pub fn judged(alloc: Global, text: &[u8]) -> Result<Plan, SdfFault>
    requires { length text.now ≤ text_most }
    ensures { IfOk result Valid }
{
    match read_description(alloc, text) {
        Ok(plan) => match check(alloc, &plan) {
            Ok(()) => Ok(plan),
            Err(fault) => {
                let_go(plan);
                Err(fault)
            }
        },
        Err(fault) => Err(fault),
    }
}

/// Lets a plan go. It has many parts, each of which is freed by itself: so this stands once.
pub fn let_go(_plan: Plan) {}
