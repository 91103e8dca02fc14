//! Plays of a description and a trace. What has many parts that are freed one by one is let go in a
//! function of its own, so that it isn't alive where another one ends.
ghost use Rattle.std.specs.Prelude.{◌≡◌};
ghost use Rattle.sdf_check.specs.Valid.{Valid};
ghost use Rattle.trace_text.specs.Traces.{IsReadFor};
ghost use Rattle.region_layout.specs.Layouts.{layout_of};

use crate::judging::{judged, let_go};
use crate::tally::Tally;
use crate::watching::{Seen, is_right};
use cargo_core::Memory;
use expect_core::{Report, budget};
use region_layout::{Layout, lay_out};
use sdf_model::TEXT_MOST;
use sdf_plan::{Plan, SdfFault};
use std::alloc::Global;
use system_core::{Ending, System};
use trace_text::{Trace, TraceFault, read_trace};

/// The most steps of a play with hostile clients that is to get quiet.
const AMPLE: u64 = 1_000_000;

/// So many seeds from the first on, and whether their plays have a limit that they may meet.
#[derive(Clone, Copy)]
pub struct Seeds {
    pub first: u64,
    pub count: u64,
    pub limited: bool,
}

// Whether a client of a plan is hostile.
fn has_rogue(plan: &Plan) -> bool {
    for domain in plan.protection_domain.as_slice() {
        if domain.program.as_str() == "serial_rogue" {
            return true;
        }
    }
    false
}

// How many steps the play of a seed makes at most: where it is to get quiet and no client is
// hostile, they are its budget.
fn most_steps(plan: &Plan, trace: &Trace, seed: u64, limited: bool) -> u64
    requires valid { Valid plan.now }
    requires trace { IsReadFor plan.now trace.now }
{
    if limited {
        seed.saturating_mul(7).saturating_add(1)
    } else if has_rogue(plan) {
        AMPLE
    } else {
        budget(plan, trace)
    }
}

fn let_report_go(_report: Result<Report, Memory>) {}

fn let_layout_go(_layout: Layout) {}

fn let_trace_go(_trace: Trace) {}

// Judges a system that was played, and lets it go.
fn judge(
    alloc: Global,
    plan: &Plan,
    layout: &Layout,
    trace: &Trace,
    system: System,
    tally: &mut Tally,
) -> Result<bool, Memory> {
    let report = system.report();
    let right = match &report {
        Ok(report) => {
            let journal = system.journal();
            let seen = Seen {
                plan,
                layout,
                trace,
                journal,
                report,
            };
            is_right(alloc, seen, tally)
        }
        Err(memory) => Err(*memory),
    };
    let_report_go(report);
    let_report_go(system.into_report());
    right
}

// Plays a seed.
fn play(
    alloc: Global,
    plan: &Plan,
    layout: &Layout,
    trace: &Trace,
    seed: u64,
    most: u64,
    tally: &mut Tally,
) -> Result<(bool, Ending), Memory>
    requires valid { Valid plan.now }
    requires layout { layout.now ≡ layout_of plan.now }
    requires trace { IsReadFor plan.now trace.now }
{
    match System::played(alloc, plan, layout, trace, seed, most) {
        Ok((system, ending)) => Ok((judge(alloc, plan, layout, trace, system, tally)?, ending)),
        Err(memory) => Err(memory),
    }
}

// Plays each seed.
fn play_seeds(
    alloc: Global,
    plan: &Plan,
    layout: &Layout,
    trace: &Trace,
    seeds: Seeds,
    tally: &mut Tally,
) -> Result<(), Memory>
    requires valid { Valid plan.now }
    requires layout { layout.now ≡ layout_of plan.now }
    requires trace { IsReadFor plan.now trace.now }
{
    for k in 0..seeds.count {
        let seed = seeds.first.saturating_add(k);
        let most = most_steps(plan, trace, seed, seeds.limited);
        let (right, ending) = play(alloc, plan, layout, trace, seed, most, tally)?;
        tally.add(seed, right);
        if !seeds.limited {
            tally.add_ample(ending == Ending::Quiet);
        }
    }
    Ok(())
}

// Plays a plan with a trace that was read for it.
fn play_trace(
    alloc: Global,
    plan: &Plan,
    trace: &Trace,
    seeds: Seeds,
    tally: &mut Tally,
) -> Result<(), Memory>
    requires valid { Valid plan.now }
    requires trace { IsReadFor plan.now trace.now }
{
    match lay_out(alloc, plan) {
        Ok(layout) => {
            let played = play_seeds(alloc, plan, &layout, trace, seeds, tally);
            let_layout_go(layout);
            played
        }
        Err(memory) => Err(memory),
    }
}

// Plays a plan with the lines of a trace; it is false where one is bad.
fn play_plan(
    alloc: Global,
    plan: &Plan,
    lines: &str,
    seeds: Seeds,
    tally: &mut Tally,
) -> Result<bool, Memory>
    requires { Valid plan.now }
{
    match read_trace(alloc, lines.as_bytes(), plan) {
        Ok(trace) => {
            let played = play_trace(alloc, plan, &trace, seeds, tally);
            let_trace_go(trace);
            match played {
                Ok(()) => Ok(true),
                Err(memory) => Err(memory),
            }
        }
        Err(TraceFault::BadLine(_)) => Ok(false),
        Err(TraceFault::Memory(memory)) => Err(memory),
    }
}

/// Plays a description's text with the lines of a trace, by each seed; it is false where one of them
/// is refused.
pub fn play_text(
    alloc: Global,
    text: &str,
    lines: &str,
    seeds: Seeds,
    tally: &mut Tally,
) -> Result<bool, Memory> {
    if text.len() > TEXT_MOST {
        return Ok(false);
    }
    match judged(alloc, text.as_bytes()) {
        Ok(plan) => {
            let played = play_plan(alloc, &plan, lines, seeds, tally);
            let_go(plan);
            played
        }
        Err(SdfFault::Refused(_)) => Ok(false),
        Err(SdfFault::Memory(memory)) => Err(memory),
    }
}
