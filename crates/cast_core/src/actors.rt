//! All actors of a plan.
ghost use Rattle.std.specs.Prelude.{◌≡◌, ◌<◌, length, IfOk};
ghost use Rattle.region_layout.specs.Layouts.{layout_of};
ghost use Rattle.region_layout.specs.Rows.{actors_of};
ghost use Rattle.sdf_check.specs.Valid.{Valid};
ghost use Rattle.trace_text.specs.Events.{net_clients, serial_clients, blk_clients};
ghost use Rattle.trace_text.specs.Traces.{IsReadFor};
ghost use Rattle.cast_core.specs.Casts.{AreCast, IsCast};

use crate::block::blk_actor;
use crate::jobs::{Job, job_of};
use crate::network::net_actor;
use crate::serial::serial_actor;
use actor_set::Actor;
use cargo_core::Memory;
use region_layout::Layout;
use sdf_plan::Plan;
use std::alloc::Global;
use trace_text::Trace;

// How many clients the network class has.
fn net_clients(plan: &Plan) -> u16
    requires { length (net_clients plan.now) < 65536 }
    ensures { result ≡ length (net_clients plan.now) }
{
    match &plan.net {
        Some(net) => net.client.len() as u16,
        None => 0,
    }
}

// How many clients the serial class has.
fn serial_clients(plan: &Plan) -> u16
    requires { length (serial_clients plan.now) < 65536 }
    ensures { result ≡ length (serial_clients plan.now) }
{
    match &plan.serial {
        Some(serial) => serial.client.len() as u16,
        None => 0,
    }
}

// How many clients the block class has.
fn blk_clients(plan: &Plan) -> u16
    requires { length (blk_clients plan.now) < 65536 }
    ensures { result ≡ length (blk_clients plan.now) }
{
    match &plan.blk {
        Some(blk) => blk.client.len() as u16,
        None => 0,
    }
}

// The actor of a number.
fn actor(
    alloc: Global,
    plan: &Plan,
    layout: &Layout,
    trace: &Trace,
    number: u16,
) -> Result<Actor, Memory>
    requires valid { Valid plan.now }
    requires layout { layout.now ≡ layout_of plan.now }
    requires trace { IsReadFor plan.now trace.now }
    requires there { number < length (actors_of plan.now) }
    ensures { IfOk result (IsCast plan.now trace.now number) }
{
    match job_of(plan, layout.queues(), number) {
        Job::Net(job) => net_actor(alloc, plan, layout.pools(), trace, net_clients(plan), job),
        Job::Serial(job) => serial_actor(alloc, plan, trace, serial_clients(plan), job),
        Job::Blk(job) => blk_actor(alloc, plan, layout.pools(), trace, blk_clients(plan), job),
    }
}

/// The actors of a valid plan, each in its start state and made of what the plan, its layout and a
/// trace give its job.
pub fn cast(
    alloc: Global,
    plan: &Plan,
    layout: &Layout,
    trace: &Trace,
) -> Result<Vec<Actor>, Memory>
    requires valid { Valid plan.now }
    requires layout { layout.now ≡ layout_of plan.now }
    requires trace { IsReadFor plan.now trace.now }
    ensures { IfOk result (λ actors. AreCast plan.now trace.now actors.items) }
{
    let count = layout.actors().len() as u16;
    let mut actors = Vec::with_capacity(alloc, count as usize)?;
    for number in 0..count {
        actors.push(actor(alloc, plan, layout, trace, number)?)?;
    }
    Ok(actors)
}
