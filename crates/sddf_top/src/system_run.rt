//! A plan and a trace, run with a thread for each actor and then played on to its end.

ghost use Rattle.std.specs.Prelude.{◌≡◌, IfOk};
ghost use Rattle.sdf_check.specs.Valid.{Valid};
ghost use Rattle.trace_text.specs.Traces.{IsReadFor};
ghost use Rattle.region_layout.specs.Layouts.{layout_of};
ghost use Rattle.system_core.specs.PlanPlays.{HasEnded};
ghost use Rattle.sddf_top.specs.SystemRun.Ran.{IsRan};

use cargo_core::Memory;
use pd_runner::{Gate, run_threads};
use region_layout::Layout;
use sdf_plan::Plan;
use std::alloc::Global;
use std::sync::Wait;
use std::thread::Threads;
use system_core::{Ending, System};
use trace_text::Trace;

/// Builds the system of a plan and runs each of its actors in a thread of its own, until all are at
/// rest or one has made `limit` steps; then it takes over what the threads left and plays it by seed
/// 0, until it is quiet or as many steps were made. Each step in a thread passes the gate.
pub fn ran<R: Threads + Wait + Sync, G: Gate + Sync>(
    rt: &R,
    alloc: Global,
    plan: &Plan,
    layout: &Layout,
    trace: &Trace,
    limit: u64,
    gate: &G,
) -> Result<(System, Ending), Memory>
    requires valid { Valid plan.now }
    requires layout { layout.now ≡ layout_of plan.now }
    requires trace { IsReadFor plan.now trace.now }
    ensures ran { IfOk result (λ r. IsRan plan.now trace.now limit r.0) }
    ensures ended { IfOk result (λ r. HasEnded limit r.0 r.1) }
{
    let system = System::build(alloc, plan, layout, trace)?;
    let parts = system.take_apart()?;
    let parts = run_threads(rt, alloc, layout, parts, limit, gate)?;
    let mut system = System::adopt(alloc, plan, layout, parts)?;
    let ending = system.play(0, limit)?;
    Ok((system, ending))
}
