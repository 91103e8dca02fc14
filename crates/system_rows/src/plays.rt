//! Plays of a description. What has many parts that are freed one by one is let go in a function of
//! its own, so that it isn't alive where another one ends.
ghost use Rattle.std.specs.Prelude.{◌≡◌};
ghost use Rattle.sdf_check.specs.Valid.{Valid};
ghost use Rattle.trace_text.specs.Traces.{IsReadFor};
ghost use Rattle.region_layout.specs.Layouts.{layout_of};

use crate::hostile::{Tally, add_scripts, is_right, limit_of};
use crate::judging::{judged, let_go};
use crate::playing::{played_in_a_row, played_once};
use crate::telling::{add_ending, add_line, add_network, add_pools, add_records, add_replies};
use cargo_core::Memory;
use expect_core::Report;
use region_layout::{Layout, lay_out};
use sdf_model::TEXT_MOST;
use sdf_plan::{Plan, SdfFault};
use std::alloc::Global;
use system_core::{Ending, System};
use trace_text::{Trace, TraceFault, read_trace};

/// The most steps of a play of a network.
const STEPS: u64 = 268_435_456;

/// What is asked of plays: several in a row by these seeds, each of so many steps at most; those of
/// a network, perhaps with its pools; or those beside hostile clients.
#[derive(Clone, Copy)]
pub enum Asked<'a> {
    Row(&'a [u64], u64),
    Network(bool),
    Hostile,
}

/// So many numbers from the first on.
#[derive(Clone, Copy)]
pub struct Numbers {
    pub first: u64,
    pub count: u64,
}

fn let_report_go(_report: Result<Report, Memory>) {}

fn let_layout_go(_layout: Layout) {}

fn let_trace_go(_trace: Trace) {}

// Plays in a row.
fn played(
    alloc: Global,
    plan: &Plan,
    layout: &Layout,
    trace: &Trace,
    seeds: &[u64],
    steps: u64,
) -> Result<(Ending, Report), Memory>
    requires valid { Valid plan.now }
    requires layout { layout.now ≡ layout_of plan.now }
    requires trace { IsReadFor plan.now trace.now }
{
    if seeds.len() == 1 {
        played_once(alloc, plan, layout, trace, seeds[0], steps)
    } else {
        played_in_a_row(alloc, plan, layout, trace, seeds, steps)
    }
}

// What plays in a row came to.
fn add_row(
    alloc: Global,
    to: &mut String,
    plan: &Plan,
    trace: &Trace,
    report: &Report,
    ending: Ending,
) -> Result<(), Memory>
    requires valid { Valid plan.now }
    requires trace { IsReadFor plan.now trace.now }
{
    add_ending(to, report, ending)?;
    add_line(to, report)?;
    add_records(alloc, to, report, trace, ending)?;
    add_replies(alloc, to, report, plan, trace, ending)?;
    to.push_str("\n")?;
    Ok(())
}

// What a play of a network came to.
fn add_network_play(
    alloc: Global,
    to: &mut String,
    plan: &Plan,
    trace: &Trace,
    report: &Report,
    ending: Ending,
    pools: bool,
) -> Result<(), Memory> {
    add_ending(to, report, ending)?;
    add_network(alloc, to, plan, report, trace)?;
    if pools {
        add_pools(to, report)?;
    }
    to.push_str("\n")?;
    Ok(())
}

// Plays in a row, and tells what they came to.
fn tell_row(
    alloc: Global,
    to: &mut String,
    plan: &Plan,
    layout: &Layout,
    trace: &Trace,
    seeds: &[u64],
    steps: u64,
) -> Result<(), Memory>
    requires valid { Valid plan.now }
    requires layout { layout.now ≡ layout_of plan.now }
    requires trace { IsReadFor plan.now trace.now }
{
    match played(alloc, plan, layout, trace, seeds, steps) {
        Ok((ending, report)) => {
            let told = add_row(alloc, to, plan, trace, &report, ending);
            let_report_go(Ok(report));
            told
        }
        Err(memory) => Err(memory),
    }
}

// Plays a network, and tells what the play came to.
fn tell_network(
    alloc: Global,
    to: &mut String,
    plan: &Plan,
    layout: &Layout,
    trace: &Trace,
    seed: u64,
    pools: bool,
) -> Result<(), Memory>
    requires valid { Valid plan.now }
    requires layout { layout.now ≡ layout_of plan.now }
    requires trace { IsReadFor plan.now trace.now }
{
    match played_once(alloc, plan, layout, trace, seed, STEPS) {
        Ok((ending, report)) => {
            let told = add_network_play(alloc, to, plan, trace, &report, ending, pools);
            let_report_go(Ok(report));
            told
        }
        Err(memory) => Err(memory),
    }
}

// Judges a system that was played beside hostile clients, and lets it go.
fn judge(
    alloc: Global,
    plan: &Plan,
    layout: &Layout,
    trace: &Trace,
    system: System,
    tally: &mut Tally,
) -> Result<bool, Memory>
    requires valid { Valid plan.now }
    requires trace { IsReadFor plan.now trace.now }
{
    let report = system.report();
    let right = match &report {
        Ok(report) => {
            tally.bad = tally.bad.saturating_add(u64::from(report.bad > 0));
            is_right(alloc, plan, layout, trace, system.journal(), report)
        }
        Err(memory) => Err(*memory),
    };
    let_report_go(report);
    let_report_go(system.into_report());
    right
}

// Plays the scripts of a number beside hostile clients.
fn play_hostile(
    alloc: Global,
    plan: &Plan,
    layout: &Layout,
    trace: &Trace,
    number: u64,
    tally: &mut Tally,
) -> Result<(), Memory>
    requires valid { Valid plan.now }
    requires layout { layout.now ≡ layout_of plan.now }
    requires trace { IsReadFor plan.now trace.now }
{
    match System::played(alloc, plan, layout, trace, number, limit_of(number)) {
        Ok((system, ending)) => {
            let right = judge(alloc, plan, layout, trace, system, tally)?;
            tally.add(number, right, ending);
            Ok(())
        }
        Err(memory) => Err(memory),
    }
}

// Plays a plan with a trace that was read for it.
fn play_trace(
    alloc: Global,
    to: &mut String,
    plan: &Plan,
    layout: &Layout,
    trace: &Trace,
    asked: Asked<'_>,
    number: u64,
    tally: &mut Tally,
) -> Result<(), Memory>
    requires valid { Valid plan.now }
    requires layout { layout.now ≡ layout_of plan.now }
    requires trace { IsReadFor plan.now trace.now }
{
    match asked {
        Asked::Row(seeds, steps) => tell_row(alloc, to, plan, layout, trace, seeds, steps),
        Asked::Network(pools) => tell_network(alloc, to, plan, layout, trace, number, pools),
        Asked::Hostile => play_hostile(alloc, plan, layout, trace, number, tally),
    }
}

// The lines of a play's trace: beside hostile clients with their scripts behind them.
fn lines_of(
    alloc: Global,
    plan: &Plan,
    layout: &Layout,
    lines: &str,
    asked: Asked<'_>,
    number: u64,
) -> Result<String, Memory> {
    let mut text = String::from_str(alloc, lines)?;
    if let Asked::Hostile = asked {
        add_scripts(&mut text, plan, layout, number)?;
    }
    Ok(text)
}

// Plays a plan with the lines of a trace. Lines that are bad are told; beside hostile clients they
// are a play that isn't right.
fn play_lines(
    alloc: Global,
    to: &mut String,
    plan: &Plan,
    layout: &Layout,
    lines: &str,
    asked: Asked<'_>,
    number: u64,
    tally: &mut Tally,
) -> Result<(), Memory>
    requires valid { Valid plan.now }
    requires layout { layout.now ≡ layout_of plan.now }
{
    match read_trace(alloc, lines.as_bytes(), plan) {
        Ok(trace) => {
            let played = play_trace(alloc, to, plan, layout, &trace, asked, number, tally);
            let_trace_go(trace);
            played
        }
        Err(TraceFault::BadLine(_)) => {
            tally.add(number, false, Ending::Spent);
            to.push_str("bad trace\n")?;
            Ok(())
        }
        Err(TraceFault::Memory(memory)) => Err(memory),
    }
}

// Plays a plan with its layout, by each number.
fn play_layout(
    alloc: Global,
    to: &mut String,
    plan: &Plan,
    layout: &Layout,
    lines: &str,
    asked: Asked<'_>,
    numbers: Numbers,
) -> Result<(), Memory>
    requires valid { Valid plan.now }
    requires layout { layout.now ≡ layout_of plan.now }
{
    let mut tally = Tally::new();
    for k in 0..numbers.count {
        let number = numbers.first.saturating_add(k);
        let text = lines_of(alloc, plan, layout, lines, asked, number)?;
        play_lines(
            alloc,
            to,
            plan,
            layout,
            text.as_str(),
            asked,
            number,
            &mut tally,
        )?;
    }
    if let Asked::Hostile = asked {
        tally.add_told(to)?;
    }
    Ok(())
}

// Plays a plan.
fn play_plan(
    alloc: Global,
    to: &mut String,
    plan: &Plan,
    lines: &str,
    asked: Asked<'_>,
    numbers: Numbers,
) -> Result<(), Memory>
    requires { Valid plan.now }
{
    match lay_out(alloc, plan) {
        Ok(layout) => {
            let played = play_layout(alloc, to, plan, &layout, lines, asked, numbers);
            let_layout_go(layout);
            played
        }
        Err(memory) => Err(memory),
    }
}

/// Plays a description's text with the lines of a trace, and tells what the plays came to.
pub fn play_text(
    alloc: Global,
    to: &mut String,
    text: &str,
    names: Option<&str>,
    lines: &str,
    asked: Asked<'_>,
    numbers: Numbers,
) -> Result<(), Memory> {
    if text.len() > TEXT_MOST {
        to.push_str("too long\n")?;
        return Ok(());
    }
    match judged(alloc, text, names) {
        Ok(Some(plan)) => {
            let played = play_plan(alloc, to, &plan, lines, asked, numbers);
            let_go(plan);
            played
        }
        Ok(None) => {
            to.push_str("too many\n")?;
            Ok(())
        }
        Err(SdfFault::Refused(_)) => {
            to.push_str("refused\n")?;
            Ok(())
        }
        Err(SdfFault::Memory(memory)) => Err(memory),
    }
}
