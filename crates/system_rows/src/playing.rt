//! The main calls of `system_core`: a system of a plan, its layout and a trace is built, played by
//! seeds, and gives its report.
ghost use Rattle.std.specs.Prelude.{◌≡◌, ◌<◌, IfOk, length, []};
ghost use Rattle.wire_core.specs.Journal.{LegalJournal};
ghost use Rattle.sdf_check.specs.Valid.{Valid};
ghost use Rattle.trace_text.specs.Traces.{IsReadFor};
ghost use Rattle.region_layout.specs.Layouts.{layout_of};
ghost use Rattle.cast_core.specs.Hostile.{HasNoRogue};
ghost use Rattle.expect_core.specs.Budgets.{budget_of};
ghost use Rattle.system_core.specs.Reports.{report_of};
ghost use Rattle.system_core.specs.Shows.{Shown, hostile_in};
ghost use Rattle.system_core.specs.Plays.{runnable_now};
ghost use Rattle.system_core.specs.PlanPlays.{IsSystemOf, StaysOfItsPlan};

use cargo_core::Memory;
use expect_core::Report;
use region_layout::Layout;
use sdf_plan::Plan;
use std::alloc::Global;
use system_core::{Ending, System};
use trace_text::Trace;

// Plays a system several times in a row, by a seed each time and so many steps at most, and answers
// how the last play ended.
fn play_in_a_row(system: &mut System, seeds: &[u64], steps: u64) -> Result<Ending, Memory>
    ensures system { StaysOfItsPlan system.old system.new }
    ensures quiet { IfOk result (λ e. e ≡ Ending.Quiet → runnable_now system.new ≡ []) }
{
    let mut ending = Ending::Spent;
    for seed in seeds {
        ending = system.play(*seed, steps)?;
    }
    Ok(ending)
}

/// How the last of several plays in a row of one system ended, and what is seen of it then: it is a
/// system of the plan and the trace, as after one play.
pub fn played_in_a_row(
    alloc: Global,
    plan: &Plan,
    layout: &Layout,
    trace: &Trace,
    seeds: &[u64],
    steps: u64,
) -> Result<(Ending, Report), Memory>
    requires valid { Valid plan.now }
    requires layout { layout.now ≡ layout_of plan.now }
    requires trace { IsReadFor plan.now trace.now }
    ensures { IfOk result (λ r. (s : Shown) × (r.1 ≡ report_of s) × IsSystemOf plan.now trace.now s
        × LegalJournal (hostile_in s.setting) s.setting.history s.setting.rows s.journal
        × (HasNoRogue plan.now → length s.journal < budget_of plan.now trace.now)
        × (r.0 ≡ Ending.Quiet → runnable_now s ≡ [])) }
{
    let mut system = System::build(alloc, plan, layout, trace)?;
    let ending = play_in_a_row(&mut system, seeds, steps);
    let report = system.into_report()?;
    Ok((ending?, report))
}

/// The same of a single play.
pub fn played_once(
    alloc: Global,
    plan: &Plan,
    layout: &Layout,
    trace: &Trace,
    seed: u64,
    steps: u64,
) -> Result<(Ending, Report), Memory>
    requires valid { Valid plan.now }
    requires layout { layout.now ≡ layout_of plan.now }
    requires trace { IsReadFor plan.now trace.now }
{
    let (system, ending) = System::played(alloc, plan, layout, trace, seed, steps)?;
    Ok((ending, system.into_report()?))
}
