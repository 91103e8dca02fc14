//! Judges the description of a row, whose domains may get other names.
ghost use Rattle.std.specs.Prelude.{◌≤◌, IfOk, IfSome, length};
ghost use Rattle.sdf_check.specs.Valid.{Valid};
ghost use Rattle.sdf_plan.specs.Elements.{IsNumbered};
ghost use Rattle.sdf_model.specs.Counts.{text_most};

use crate::naming::rename_domain;
use crate::numbering::is_numbered;
use cargo_core::Memory;
use sdf_check::check;
use sdf_model::read_description;
use sdf_plan::{Plan, SdfFault};
use std::alloc::Global;

// The plan with another name of a domain where a row gives one as `NAME as OTHER`; None where its
// lists have too many elements.
fn with_names(alloc: Global, mut plan: Plan, old: &str, new: &str) -> Result<Option<Plan>, Memory>
    ensures { IfOk result (λ plan. IfSome plan IsNumbered) }
{
    let done = rename_domain(alloc, &mut plan, old, new);
    if done.is_ok() && is_numbered(&plan) {
        return Ok(Some(plan));
    }
    let_go(plan);
    match done {
        Ok(()) => Ok(None),
        Err(memory) => Err(memory),
    }
}

// The plan that a text spells, with the names that a row gives.
fn read_with_names(alloc: Global, text: &str, names: Option<&str>) -> Result<Option<Plan>, SdfFault>
    requires { length text.now ≤ text_most }
    ensures { IfOk result (λ plan. IfSome plan IsNumbered) }
{
    match read_description(alloc, text.as_bytes()) {
        Ok(plan) => match names.and_then(|names| names.split_once(" as ")) {
            Some((old, new)) => match with_names(alloc, plan, old, new) {
                Ok(plan) => Ok(plan),
                Err(memory) => Err(SdfFault::Memory(memory)),
            },
            None => Ok(Some(plan)),
        },
        Err(fault) => Err(fault),
    }
}

/// The plan of a row, where no rule is broken; None where its lists have too many elements.
pub fn judged(alloc: Global, text: &str, names: Option<&str>) -> Result<Option<Plan>, SdfFault>
    requires { length text.now ≤ text_most }
    ensures { IfOk result (λ plan. IfSome plan Valid) }
{
    match read_with_names(alloc, text, names) {
        Ok(Some(plan)) => match check(alloc, &plan) {
            Ok(()) => Ok(Some(plan)),
            Err(fault) => {
                let_go(plan);
                Err(fault)
            }
        },
        Ok(None) => Ok(None),
        Err(fault) => Err(fault),
    }
}

/// Lets a plan go. It has many parts, each of which is freed by itself: so this stands once.
pub fn let_go(_plan: Plan) {}
