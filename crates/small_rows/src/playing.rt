//! A plan played by both players. What has many parts that are freed one by one isn't alive where a
//! function returns early: a system is used up for its report, and the rest is handed on.
ghost use Rattle.std.specs.Prelude.{◌≡◌};
ghost use Rattle.trace_text.specs.Traces.{IsReadFor};
ghost use Rattle.region_layout.specs.Layouts.{layout_of};
ghost use Rattle.sdf_check.specs.Valid.{Valid};
ghost use Rattle.cast_core.specs.Hostile.{HasNoRogue};

use crate::order::Player;
use crate::wrapping::{Wrapped, all_wait, wrap};
use cargo_core::Memory;
use cast_core::cast;
use region_layout::{Layout, lay_out};
use sdf_plan::Plan;
use small_system::Small;
use std::alloc::Global;
use system_core::{Ending, System};
use trace_text::Trace;

/// How many steps a play makes at most.
const LIMIT: u64 = 1 << 40;

/// How many seeds are tried.
const SEEDS: u64 = 20;

// Lets a layout go.
fn let_layout_go(_layout: Layout) {}

// The system of a plan in its start state.
fn system_of(alloc: Global, plan: &Plan, trace: &Trace) -> Result<System, Memory>
    requires valid { Valid plan.now }
    requires read { IsReadFor plan.now trace.now }
{
    match lay_out(alloc, plan) {
        Ok(layout) => {
            let system = System::build(alloc, plan, &layout, trace);
            let_layout_go(layout);
            system
        }
        Err(memory) => Err(memory),
    }
}

// Lets a system go.
fn let_system_go(system: System) {
    drop(system.into_report());
}

// The actors of a plan, each in its wrapping, at the queues of its layout, where none of them drops
// anything.
fn small_at(
    alloc: Global,
    plan: &Plan,
    layout: &Layout,
    trace: &Trace,
) -> Result<Option<Small<Wrapped>>, Memory>
    requires valid { Valid plan.now }
    requires layout { layout.now ≡ layout_of plan.now }
    requires read { IsReadFor plan.now trace.now }
    requires friendly { HasNoRogue plan.now }
{
    let cast = cast(alloc, plan, layout, trace)?;
    if !all_wait(&cast) {
        drop(cast);
        return Ok(None);
    }
    let actors = wrap(alloc, cast)?;
    Ok(Some(Small::new(alloc, layout.queues(), actors)?))
}

// The same at the layout of the plan.
fn small_of(alloc: Global, plan: &Plan, trace: &Trace) -> Result<Option<Small<Wrapped>>, Memory>
    requires valid { Valid plan.now }
    requires read { IsReadFor plan.now trace.now }
    requires friendly { HasNoRogue plan.now }
{
    match lay_out(alloc, plan) {
        Ok(layout) => {
            let small = small_at(alloc, plan, &layout, trace);
            let_layout_go(layout);
            small
        }
        Err(memory) => Err(memory),
    }
}

// Plays by a seed in both ways: how many steps `Small` made, and whether both journals are one and
// both are quiet.
fn played(
    system: &mut System,
    small: &mut Small<Wrapped>,
    seed: u64,
) -> Result<(usize, bool), Memory> {
    let ending = system.play(seed, LIMIT)?;
    let quiet = small.play(seed, LIMIT)?;
    let both = quiet && ending == Ending::Quiet;
    let same = small.journal() == system.journal();
    Ok((small.journal().len(), both && same))
}

// The same of a plan's system, beside its actors in their wrappings.
fn played_beside(
    alloc: Global,
    plan: &Plan,
    trace: &Trace,
    seed: u64,
    small: &mut Small<Wrapped>,
) -> Result<(usize, bool), Memory>
    requires valid { Valid plan.now }
    requires read { IsReadFor plan.now trace.now }
{
    match system_of(alloc, plan, trace) {
        Ok(mut system) => {
            let played = played(&mut system, small, seed);
            let_system_go(system);
            played
        }
        Err(memory) => Err(memory),
    }
}

// The same of a plan. Where an actor drops something, the journals aren't one.
fn compared(alloc: Global, plan: &Plan, trace: &Trace, seed: u64) -> Result<(usize, bool), Memory>
    requires valid { Valid plan.now }
    requires read { IsReadFor plan.now trace.now }
    requires friendly { HasNoRogue plan.now }
{
    match small_of(alloc, plan, trace) {
        Ok(Some(mut small)) => {
            let played = played_beside(alloc, plan, trace, seed, &mut small);
            drop(small);
            played
        }
        Ok(None) => Ok((0, false)),
        Err(memory) => Err(memory),
    }
}

/// A line for each seed: how many steps were made, and whether both players made the same and got
/// quiet.
pub(crate) fn table(alloc: Global, plan: &Plan, trace: &Trace) -> Result<String, Memory>
    requires valid { Valid plan.now }
    requires read { IsReadFor plan.now trace.now }
    requires friendly { HasNoRogue plan.now }
{
    let mut text = String::new(alloc);
    for seed in 0..SEEDS {
        let (steps, same) = compared(alloc, plan, trace, seed)?;
        write!(text, "seed {seed}: {steps} steps, one journal: {same}\n")?;
    }
    Ok(text)
}

// How many steps `Small` makes.
fn steps_by_small(alloc: Global, plan: &Plan, trace: &Trace) -> Result<usize, Memory>
    requires valid { Valid plan.now }
    requires read { IsReadFor plan.now trace.now }
    requires friendly { HasNoRogue plan.now }
{
    match small_of(alloc, plan, trace) {
        Ok(Some(mut small)) => {
            let played = small.play(0, LIMIT);
            let steps = small.journal().len();
            drop(small);
            played?;
            Ok(steps)
        }
        Ok(None) => Ok(0),
        Err(memory) => Err(memory),
    }
}

// How many steps `System` makes.
fn steps_by_system(alloc: Global, plan: &Plan, trace: &Trace) -> Result<usize, Memory>
    requires valid { Valid plan.now }
    requires read { IsReadFor plan.now trace.now }
{
    match system_of(alloc, plan, trace) {
        Ok(mut system) => {
            let played = system.play(0, LIMIT);
            let steps = system.journal().len();
            let_system_go(system);
            played?;
            Ok(steps)
        }
        Err(memory) => Err(memory),
    }
}

/// How many steps one of the players makes.
pub(crate) fn steps_by(
    alloc: Global,
    plan: &Plan,
    trace: &Trace,
    player: Player,
) -> Result<String, Memory>
    requires valid { Valid plan.now }
    requires read { IsReadFor plan.now trace.now }
    requires friendly { HasNoRogue plan.now }
{
    let steps = match player {
        Player::Small => steps_by_small(alloc, plan, trace)?,
        Player::System => steps_by_system(alloc, plan, trace)?,
    };
    Ok(format!(in alloc; "{steps} steps\n")?)
}
