//! A play that tells how far it is: it is made in slices, and between two of them a line is
//! written.
ghost use Rattle.std.specs.Prelude.{◌≡◌, ◌<◌, ◌^◌, IfOk, OnErr, string_bytes, false};
ghost use Rattle.std.specs.Prelude.{length};
ghost use Rattle.wire_core.specs.Picks.{drawn};
ghost use Rattle.sdf_check.specs.Valid.{Valid};
ghost use Rattle.trace_text.specs.Traces.{IsReadFor};
ghost use Rattle.region_layout.specs.Layouts.{layout_of};
ghost use Rattle.system_core.specs.PlanPlays.{IsPlayed};
ghost use Rattle.system_core.specs.Reports.{report_of};
ghost use Rattle.view_plays.specs.ToldPlays.Progress.{progress_line, IsProgress, HasTold};

use cargo_core::Memory;
use region_layout::Layout;
use sdf_plan::Plan;
use decision_core::shelf_core::{Sink, write_text};
use std::alloc::Global;
use system_core::{Ending, System};
use trace_text::Trace;
use wire_core::{Entry, next_seed};

/// How many steps are made between two lines.
const SLICE: u64 = 262_144;

// The line after so many slices.
fn progress_line(alloc: Global, slices: u64) -> Result<String, Memory>
    requires { slices < 2 ^ 46 }
    ensures { IfOk result (λ line. string_bytes line ≡ progress_line slices) }
{
    let steps = SLICE * slices;
    Ok(format!(in alloc; "{steps} steps\n")?)
}

// Writes the line after one more slice, unless one before it couldn't be written; and whether none
// failed yet.
fn tell<E: Sink>(alloc: Global, err: &mut E, going: bool, slices: u64) -> Result<bool, Memory>
    requires { slices < 2 ^ 46 }
    ensures ok { IfOk result (HasTold E.written err.old err.new going slices) }
    ensures err { OnErr result (err.new ≡ err.old) }
{
    if !going {
        return Ok(false);
    }
    let line = progress_line(alloc, slices)?;
    match write_text(err, line.as_bytes()) {
        Ok(()) => Ok(true),
        Err(_) => Ok(false),
    }
}

// The number that was drawn last, after so many more steps.
fn drawn(seed: u64, entries: &[Entry]) -> u64
    ensures { result ≡ drawn seed entries.now }
{
    let mut x = seed;
    for _entry in entries {
        x = next_seed(x);
    }
    x
}

/// Builds the system of a plan and plays it by a seed until it is quiet or so many steps were made,
/// as `System::played` does; and after each 262,144 steps it writes how many were made.
pub fn played_told<E: Sink>(
    alloc: Global,
    plan: &Plan,
    layout: &Layout,
    trace: &Trace,
    seed: u64,
    limit: u64,
    err: &mut E,
) -> Result<System, Memory>
    requires valid { Valid plan.now }
    requires layout { layout.now ≡ layout_of plan.now }
    requires trace { IsReadFor plan.now trace.now }
    ensures played { IfOk result (IsPlayed plan.now trace.now seed limit) }
    ensures spent { IfOk result (λ s. (report_of s).quiet ≡ false
        → length s.journal ≡ limit) }
    ensures told { IsProgress E.written err.old err.new }
{
    let mut system = System::build(alloc, plan, layout, trace)?;
    let mut x = seed;
    let mut left = limit;
    let mut slices: u64 = 0;
    let mut going = true;
    while left > SLICE {
        let before = system.journal().len();
        let ending = system.play(x, SLICE)?;
        match ending {
            Ending::Quiet => return Ok(system),
            Ending::Spent => {}
        }
        x = drawn(x, &system.journal()[before..]);
        left -= SLICE;
        slices += 1;
        going = tell(alloc, err, going, slices)?;
    }
    let _ending = system.play(x, left)?;
    Ok(system)
}
