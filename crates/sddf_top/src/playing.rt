//! A trace is played or run on a plan, and what the system shows is made the answer.
ghost use Rattle.std.specs.Prelude.{◌≡◌, IfOk, string_bytes};
ghost use Rattle.trace_text.specs.Traces.{IsReadFor};
ghost use Rattle.region_layout.specs.Layouts.{layout_of};
ghost use Rattle.report_text.specs.Reports.{report_text};
ghost use Rattle.system_core.specs.Reports.{report_of};
ghost use Rattle.decision_core.specs.Judged.{IsAcceptedPlan};
ghost use Rattle.decision_core.specs.Decisions.{Play, Run};
ghost use Rattle.sddf_top.specs.Shown.{seed_of, limit_of, limit_or_budget, ending_of, told_text};
ghost use Rattle.sddf_top.specs.Shown.{shown_text};
ghost use Rattle.sddf_top.specs.Outcomes.{Follows};

use crate::Played;
use crate::answering::Outcome;
use crate::system_run::ran;
use cargo_core::Memory;
use decision_core::{Showing, Status};
use expect_core::{Report, budget};
use pd_runner::Gate;
use region_layout::{Layout, lay_out};
use report_text::{write_journal, write_report, write_summary};
use sdf_plan::Plan;
use std::alloc::Global;
use std::sync::Wait;
use std::thread::Threads;
use system_core::System;
use trace_text::Trace;
use wire_core::Entry;

/// A limit of steps, or as many as are enough.
fn limit_or_budget(plan: &Plan, trace: &Trace, steps: Option<u64>) -> u64
    requires accepted { IsAcceptedPlan plan.now }
    requires read { IsReadFor plan.now trace.now }
    ensures { result ≡ limit_or_budget plan.now trace.now steps }
{
    match steps {
        Some(steps) => steps,
        None => budget(plan, trace),
    }
}

/// How many steps a play may make: those that the words say, or those that are enough.
fn limit_of(plan: &Plan, trace: &Trace, showing: Showing) -> u64
    requires accepted { IsAcceptedPlan plan.now }
    requires read { IsReadFor plan.now trace.now }
    ensures { result ≡ limit_of plan.now trace.now showing }
{
    match showing {
        Showing::Report(options) => limit_or_budget(plan, trace, options.steps),
        Showing::Summary => budget(plan, trace),
    }
}

/// The seed of the picks.
fn seed_of(showing: Showing) -> u64
    ensures { result ≡ seed_of showing }
{
    match showing {
        Showing::Report(options) => options.seed,
        Showing::Summary => 0,
    }
}

/// How a play or a run ended, by its report.
pub fn ending_of(quiet: bool, steps: u64) -> Status
    ensures { result ≡ ending_of quiet steps }
{
    if quiet {
        Status::Ok
    } else {
        Status::Spent(steps)
    }
}

/// A report, and the journal behind it where it is asked for.
fn told_text(
    alloc: Global,
    layout: &Layout,
    with_journal: bool,
    report: &Report,
    journal: &[Entry],
) -> Result<String, Memory>
    ensures { IfOk result (λ s. string_bytes s
        ≡ told_text layout.now with_journal report.now journal.now) }
{
    let mut text = write_report(alloc, report)?;
    if with_journal {
        let lines = write_journal(alloc, layout, journal)?;
        text.push_str(lines.as_str())?;
    }
    Ok(text)
}

/// The text of a play: its report, with the journal where it is asked for, or its summary.
fn shown_text(
    alloc: Global,
    layout: &Layout,
    showing: Showing,
    report: &Report,
    journal: &[Entry],
) -> Result<String, Memory>
    ensures { IfOk result (λ s. string_bytes s
        ≡ shown_text layout.now showing report.now journal.now) }
{
    match showing {
        Showing::Report(options) => told_text(alloc, layout, options.journal, report, journal),
        Showing::Summary => write_summary(alloc, report),
    }
}

/// How a play ended, and the text of what is shown of it.
fn show_play(
    alloc: Global,
    layout: &Layout,
    showing: Showing,
    system: &System,
) -> Result<(Status, String), Memory>
    ensures status { IfOk result (λ r. r.0
        ≡ ending_of (report_of system.now).quiet (report_of system.now).steps) }
    ensures text { IfOk result (λ r. string_bytes r.1
        ≡ shown_text layout.now showing (report_of system.now) system.now.journal) }
{
    let report = system.report()?;
    let text = shown_text(alloc, layout, showing, &report, system.journal())?;
    Ok((ending_of(report.quiet, report.steps), text))
}

/// How a run ended, and the text of its report.
fn show_run(alloc: Global, system: &System) -> Result<(Status, String), Memory>
    ensures status { IfOk result (λ r. r.0
        ≡ ending_of (report_of system.now).quiet (report_of system.now).steps) }
    ensures text { IfOk result (λ r. string_bytes r.1 ≡ report_text (report_of system.now)) }
{
    let report = system.report()?;
    let text = write_report(alloc, &report)?;
    Ok((ending_of(report.quiet, report.steps), text))
}

/// Plays a trace on a plan that is laid out, and makes the answer of what the system shows.
fn play_laid(
    alloc: Global,
    plan: &Plan,
    layout: &Layout,
    trace: &Trace,
    showing: Showing,
) -> Result<Outcome, Memory>
    requires accepted { IsAcceptedPlan plan.now }
    requires layout { layout.now ≡ layout_of plan.now }
    requires read { IsReadFor plan.now trace.now }
    ensures { IfOk result (Follows (Play plan.now trace.now showing)) }
{
    let limit = limit_of(plan, trace, showing);
    let (system, _) = System::played(alloc, plan, layout, trace, seed_of(showing), limit)?;
    match show_play(alloc, layout, showing, &system) {
        Ok((status, text)) => Ok(Outcome {
            status,
            text,
            played: Played::Classes(system),
        }),
        Err(memory) => {
            Played::Classes(system).forget();
            Err(memory)
        }
    }
}

/// Plays a trace on a plan, and makes the answer of what the system shows.
pub fn play(alloc: Global, plan: &Plan, trace: &Trace, showing: Showing) -> Result<Outcome, Memory>
    requires accepted { IsAcceptedPlan plan.now }
    requires read { IsReadFor plan.now trace.now }
    ensures { IfOk result (Follows (Play plan.now trace.now showing)) }
{
    let layout = lay_out(alloc, plan)?;
    play_laid(alloc, plan, &layout, trace, showing)
}

/// Runs a trace on a plan that is laid out, as `run` does.
fn run_laid<R: Threads + Wait + Sync, G: Gate + Sync>(
    rt: &R,
    alloc: Global,
    plan: &Plan,
    layout: &Layout,
    trace: &Trace,
    steps: Option<u64>,
    gate: &G,
) -> Result<Outcome, Memory>
    requires accepted { IsAcceptedPlan plan.now }
    requires layout { layout.now ≡ layout_of plan.now }
    requires read { IsReadFor plan.now trace.now }
    ensures { IfOk result (Follows (Run plan.now trace.now steps)) }
{
    let limit = limit_or_budget(plan, trace, steps);
    let (system, _) = ran(rt, alloc, plan, layout, trace, limit, gate)?;
    match show_run(alloc, &system) {
        Ok((status, text)) => Ok(Outcome {
            status,
            text,
            played: Played::Classes(system),
        }),
        Err(memory) => {
            Played::Classes(system).forget();
            Err(memory)
        }
    }
}

/// Runs a trace on a plan with a thread for each actor, and makes the answer of what the system shows
/// that took over what the threads left.
pub fn run<R: Threads + Wait + Sync, G: Gate + Sync>(
    rt: &R,
    alloc: Global,
    plan: &Plan,
    trace: &Trace,
    steps: Option<u64>,
    gate: &G,
) -> Result<Outcome, Memory>
    requires accepted { IsAcceptedPlan plan.now }
    requires read { IsReadFor plan.now trace.now }
    ensures { IfOk result (Follows (Run plan.now trace.now steps)) }
{
    let layout = lay_out(alloc, plan)?;
    run_laid(rt, alloc, plan, &layout, trace, steps, gate)
}
