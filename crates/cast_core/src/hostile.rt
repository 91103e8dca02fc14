//! The hostile clients of a plan: each stands at the queues of a client of its class, with the
//! buffers of its pools, and has its acts from the trace.
ghost use Rattle.std.specs.Prelude.{◌≡◌, ◌<◌, ◌≤◌, ◌+◌, ◌*◌, ◌||◌, List, true, false, length, IfOk};
ghost use Rattle.cargo_core.specs.Blocks.{blk_buffer_bytes};
ghost use Rattle.sdf_plan.specs.declared.plan.Plan.{Plan};
ghost use Rattle.sdf_check.specs.Valid.{Valid};
ghost use Rattle.trace_text.specs.declared.trace.Trace.{Trace};
ghost use Rattle.trace_text.specs.declared.class.Class.TheVariants as Of;
ghost use Rattle.trace_text.specs.Events.{is_blk_rogue, is_net_rogue, is_serial_rogue};
ghost use Rattle.layout_laws.specs.Jobs.Jobs.{Job};
ghost use Rattle.actor_set.specs.Actors.{part_of};
ghost use Rattle.actor_set.specs.Parts.{HostilePart};
ghost use Rattle.actor_set.specs.StartStates.{IsNew};
ghost use Rattle.cast_core.specs.Casts.{AreCalmCast, AreCast, calm_part, job_part};
ghost use Rattle.cast_core.specs.Sources.{pool_at, pools_at};
ghost use Rattle.cast_core.specs.Making.{HasNetPool, HasPool};
ghost use Rattle.cast_core.specs.Hostile.{acts_at, blk_rogue_at, net_rogue_at, serial_rogue_at};
ghost use Rattle.cast_core.specs.Hostile.{HasActs, HasNoRogue};

use crate::pools::{pages, pool_row};
use actor_set::Actor;
use cargo_core::{BLK_BUFFER_BYTES, Memory, QueueKind};
use client_programs::Rogue;
use sdf_plan::Plan;
use std::alloc::Global;
use trace_text::{Trace, is_blk_rogue, is_net_rogue, is_serial_rogue};
use wire_core::{PoolRow, QueueId};

/// The hostile network client of a number. Its pages are those for receiving and then those for
/// sending.
pub fn net_rogue(
    alloc: Global,
    pools: &[PoolRow],
    trace: &Trace,
    clients: u16,
    client: u16,
) -> Result<Rogue, Memory>
    requires few { clients ≤ 8 }
    requires there { client < clients }
    requires rx { HasNetPool pools.now (1 + 2 * client) }
    requires tx { HasNetPool pools.now (2 + 2 * client) }
    requires acts { HasActs Of.Net trace.now.net_acts clients }
    ensures new { IfOk result (λ r. IsNew (Actor.Rogue r)) }
    ensures part { IfOk result (λ r. part_of (Actor.Rogue r)
        ≡ HostilePart (net_rogue_at 0 client (pools_at pools.now client)
        (acts_at trace.now.net_acts client))) }
{
    let first = 8 + 6 * client;
    let rx = 1 + 2 * client;
    let tx = 2 + 2 * client;
    let rx_row = pool_row(pools, rx);
    let tx_row = pool_row(pools, tx);
    let mut own = pages(alloc, rx, rx_row.buffers, rx_row.size)?;
    let mut sends = pages(alloc, tx, tx_row.buffers, tx_row.size)?;
    own.append(&mut sends)?;
    let inputs = vec![in alloc; QueueId(first + 2), QueueId(first + 5)]?;
    let outputs = vec![in alloc; QueueId(first + 3), QueueId(first + 4)]?;
    let acts = Vec::from_slice(alloc, trace.acts(0, client as u32))?;
    Ok(Rogue::new(alloc, QueueKind::Net, inputs, outputs, own, acts)?)
}

/// The hostile serial client of a number, where the class begins at this queue. It has no pages.
pub fn serial_rogue(
    alloc: Global,
    first: u16,
    trace: &Trace,
    clients: u16,
    client: u16,
) -> Result<Rogue, Memory>
    requires few { clients ≤ 8 }
    requires there { client < clients }
    requires numbered { first + 4 + 2 * clients ≤ 65536 }
    requires acts { HasActs Of.Serial trace.now.serial_acts clients }
    ensures new { IfOk result (λ r. IsNew (Actor.Rogue r)) }
    ensures part { IfOk result (λ r. part_of (Actor.Rogue r)
        ≡ HostilePart (serial_rogue_at first client (acts_at trace.now.serial_acts client))) }
{
    let rx = first + 4 + 2 * client;
    let inputs = vec![in alloc; QueueId(rx)]?;
    let outputs = vec![in alloc; QueueId(rx + 1)]?;
    let own = Vec::new(alloc);
    let acts = Vec::from_slice(alloc, trace.acts(1, client as u32))?;
    Ok(Rogue::new(alloc, QueueKind::Byte, inputs, outputs, own, acts)?)
}

/// The hostile block client of a number, where the class begins at this queue, and its pool has
/// this number.
pub fn blk_rogue(
    alloc: Global,
    first: u16,
    pool: u16,
    pools: &[PoolRow],
    trace: &Trace,
    clients: u16,
    client: u16,
) -> Result<Rogue, Memory>
    requires few { clients ≤ 8 }
    requires there { client < clients }
    requires queues { first ≤ 100 }
    requires pool { HasPool blk_buffer_bytes pools.now pool }
    requires acts { HasActs Of.Blk trace.now.blk_acts clients }
    ensures new { IfOk result (λ r. IsNew (Actor.Rogue r)) }
    ensures part { IfOk result (λ r. part_of (Actor.Rogue r)
        ≡ HostilePart (blk_rogue_at first client (pool_at pools.now pool)
        (acts_at trace.now.blk_acts client))) }
{
    let own = pages(alloc, pool, pool_row(pools, pool).buffers, BLK_BUFFER_BYTES)?;
    let req = first + 4 + 2 * client;
    let inputs = vec![in alloc; QueueId(req + 1)]?;
    let outputs = vec![in alloc; QueueId(req)]?;
    let acts = Vec::from_slice(alloc, trace.acts(2, client as u32))?;
    Ok(Rogue::new(alloc, QueueKind::Req, inputs, outputs, own, acts)?)
}

// Whether a client of a number is hostile, of any class.
fn is_any_rogue(plan: &Plan, client: u64) -> bool
    ensures { result ≡ (is_net_rogue plan.now client || is_serial_rogue plan.now client
        || is_blk_rogue plan.now client) }
{
    is_net_rogue(plan, client) || is_serial_rogue(plan, client) || is_blk_rogue(plan, client)
}

/// Whether no client of a valid plan is hostile.
pub fn has_no_rogue(plan: &Plan) -> bool
    requires { Valid plan.now }
    ensures none { result ≡ true → HasNoRogue plan.now }
    ensures some { result ≡ false → HasNoRogue plan.now → ⊥ }
{
    for client in 0..8 {
        if is_any_rogue(plan, client) {
            return false;
        }
    }
    true
}

/// No job of a plan without hostile clients makes a hostile actor, so none of its actors is one.
pub fn calm_law()
    ensures parts { (plan : Plan) (trace : Trace) (job : Job) → HasNoRogue plan
        → job_part plan trace job ≡ calm_part plan trace job }
    ensures cast { (plan : Plan) (trace : Trace) (actors : List Actor) → HasNoRogue plan
        → AreCast plan trace actors → AreCalmCast plan trace actors }
{}
