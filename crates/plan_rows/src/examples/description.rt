//! `sdf_model` and `sdf_check`: a description's text is read into a plan, which is then judged.

ghost use Rattle.std.specs.Prelude.{◌≤◌, IfOk, length};
ghost use Rattle.sdf_check.specs.Valid.{Valid};
ghost use Rattle.sdf_model.specs.Counts.{text_most};

use cargo_core::Memory;
use report_text::{write_accepted, write_refused, write_too_long};
use sdf_check::check;
use sdf_model::{TEXT_MOST, read_description};
use sdf_plan::{Plan, SdfFault};
use std::alloc::Global;

/// A description with a key that no domain has.
pub const MISSPELT: &str = "protection_domain = [{name=\"main\", prority=1, program=\"idle\"}]\n";

/// The plan of a description that breaks no rule.
pub fn judged(alloc: Global, text: &str) -> Result<Plan, SdfFault>
    requires { length text.now ≤ text_most }
    ensures { IfOk result Valid }
{
    let plan = read_description(alloc, text.as_bytes())?;
    check(alloc, &plan)?;
    Ok(plan)
}

/// Says of a description how much its plan has, or which rule it breaks and where.
pub fn show_description(alloc: Global, text: &str) -> Result<String, Memory> {
    if text.len() > TEXT_MOST {
        return write_too_long(alloc);
    }
    match judged(alloc, text) {
        Ok(plan) => write_accepted(alloc, &plan),
        Err(SdfFault::Refused(refusal)) => write_refused(alloc, &refusal),
        Err(SdfFault::Memory(memory)) => Err(memory),
    }
}
