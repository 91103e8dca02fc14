//! The serial example's actors play by `Small`, behind its trait, as they play by `System`: for
//! each of twenty seeds the two journals are compared, entry by entry. With the words `small COUNT`
//! or `system COUNT` so many bytes of input are played by one of the two, for measuring.
#![tactic(auto)]

ghost use Rattle.cast_core.specs.Hostile.{HasNoRogue};
ghost use Rattle.sdf_check.specs.Valid.{Valid};
ghost use Rattle.trace_text.specs.Traces.{IsReadFor};

mod judging;
mod order;
mod playing;
mod wrapping;

use cargo_core::Memory;
use cast_core::has_no_rogue;
use judging::{judged, let_plan_go};
use order::{Order, read_order};
use playing::{steps_by, table};
use sdf_model::TEXT_MOST;
use sdf_plan::Plan;
use std::alloc::Global;
use std::{env, fs, io};
use trace_text::{Trace, read_trace};

/// What the client says and the line brings.
const LINES: &str = "say 0 616263\nin 7071\n";

/// What is printed where there is nothing to play.
const NONE: &str = "no plan\n";

// The lines of the trace.
fn lines(alloc: Global, order: Option<Order>) -> Result<String, Memory> {
    match order {
        Some(order) => Ok(format!(in alloc; "in {}*78\n", order.count)?),
        None => Ok(String::from_str(alloc, LINES)?),
    }
}

fn let_trace_go(_trace: Trace) {}

// What is printed of a plan and a trace.
fn shown_plays(
    alloc: Global,
    plan: &Plan,
    trace: &Trace,
    order: Option<Order>,
) -> Result<String, Memory>
    requires valid { Valid plan.now }
    requires read { IsReadFor plan.now trace.now }
    requires friendly { HasNoRogue plan.now }
{
    match order {
        Some(order) => steps_by(alloc, plan, trace, order.player),
        None => table(alloc, plan, trace),
    }
}

// What is printed of a plan.
fn shown_plan(
    alloc: Global,
    plan: &Plan,
    lines: &str,
    order: Option<Order>,
) -> Result<String, Memory>
    requires { Valid plan.now }
{
    if !has_no_rogue(plan) {
        return Ok(String::from_str(alloc, NONE)?);
    }
    match read_trace(alloc, lines.as_bytes(), plan) {
        Ok(trace) => {
            let shown = shown_plays(alloc, plan, &trace, order);
            let_trace_go(trace);
            shown
        }
        Err(_) => Ok(String::from_str(alloc, NONE)?),
    }
}

// What is printed of a description.
fn shown(alloc: Global, text: &str, order: Option<Order>) -> Result<String, Memory> {
    let lines = lines(alloc, order)?;
    if text.len() > TEXT_MOST {
        return Ok(String::from_str(alloc, NONE)?);
    }
    match judged(alloc, text.as_bytes()) {
        Ok(plan) => {
            let shown = shown_plan(alloc, &plan, lines.as_str(), order);
            let_plan_go(plan);
            shown
        }
        Err(_) => Ok(String::from_str(alloc, NONE)?),
    }
}

fn main(rt: HostRuntime) -> io::Result<()> {
    let mut words = Vec::new(rt.alloc());
    for word in env::args(&rt)?.skip(1) {
        words.push(word)?;
    }
    let text = fs::read_to_string(&rt, "serial.toml")?;
    match shown(rt.alloc(), text.as_str(), read_order(&words)) {
        Ok(text) => rt.print(text.as_str()),
        Err(_) => rt.println("no memory"),
    }
}
