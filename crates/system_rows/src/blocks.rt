//! What block clients record.
ghost use Rattle.std.specs.Prelude.{◌≡◌, length};
ghost use Rattle.sdf_check.specs.Valid.{Valid};
ghost use Rattle.trace_text.specs.Events.{blk_clients};
ghost use Rattle.trace_text.specs.Traces.{IsReadFor};

use cargo_core::{Memory, Reply};
use expect_core::{Report, replies_of};
use sdf_plan::Plan;
use std::alloc::Global;
use trace_text::{Trace, is_blk_rogue};

/// How many block clients a plan has.
pub fn block_clients(plan: &Plan) -> usize
    ensures { result ≡ length (blk_clients plan.now) }
{
    match &plan.blk {
        Some(blk) => blk.client.len(),
        None => 0,
    }
}

// Whether replies are a beginning of others, or all of them where that is wanted.
fn begin_replies(replies: &[Reply], wanted: &[Reply], whole: bool) -> bool {
    if replies.len() > wanted.len() || whole && replies.len() < wanted.len() {
        return false;
    }
    for k in 0..replies.len() {
        if k < wanted.len()
            && (replies[k].resp != wanted[k].resp
                || replies[k].bytes.as_slice() != wanted[k].bytes.as_slice())
        {
            return false;
        }
    }
    true
}

/// Whether the replies of a block client are a beginning of what the trace gives it, or all of it
/// where that is wanted.
pub fn are_replies_right(
    alloc: Global,
    plan: &Plan,
    trace: &Trace,
    replies: &[Reply],
    client: usize,
    whole: bool,
) -> Result<bool, Memory>
    requires valid { Valid plan.now }
    requires trace { IsReadFor plan.now trace.now }
{
    let Ok(number) = u32::try_from(client) else {
        return Ok(false);
    };
    if client >= block_clients(plan) {
        return Ok(false);
    }
    let wanted = replies_of(alloc, trace, plan, number)?;
    Ok(begin_replies(replies, wanted.as_slice(), whole))
}

/// Whether what each block client recorded is right, beside hostile ones, which record nothing. In a
/// class without one it is all of it in a quiet play.
pub fn is_block_right(
    alloc: Global,
    plan: &Plan,
    trace: &Trace,
    report: &Report,
) -> Result<bool, Memory>
    requires valid { Valid plan.now }
    requires trace { IsReadFor plan.now trace.now }
{
    let clients = block_clients(plan);
    let mut whole = report.quiet;
    for client in 0..clients {
        whole = whole && !is_blk_rogue(plan, client as u64);
    }
    let mut right = report.blk.len() == clients;
    for client in 0..report.blk.len() {
        let replies = report.blk.get(client).as_slice();
        right = right
            && if is_blk_rogue(plan, client as u64) {
                replies.is_empty()
            } else {
                are_replies_right(alloc, plan, trace, replies, client, whole)?
            };
    }
    Ok(right)
}
