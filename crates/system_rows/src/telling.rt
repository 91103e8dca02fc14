//! How a play is told: a line of text.
ghost use Rattle.std.specs.Prelude.{◌≡◌};
ghost use Rattle.sdf_check.specs.Valid.{Valid};
ghost use Rattle.trace_text.specs.Traces.{IsReadFor};

use crate::blocks::are_replies_right;
use crate::network::{recorded, sent};
use crate::serial::is_record_right;
use cargo_core::{FrameLog, Memory};
use expect_core::Report;
use sdf_plan::{Net, Plan};
use std::alloc::Global;
use system_core::Ending;
use trace_text::Trace;

// Words with a number between them.
fn add(to: &mut String, before: &str, number: usize, behind: &str) -> Result<(), Memory> {
    write!(to, "{before}{number}{behind}")?;
    Ok(())
}

// So many times a byte.
fn add_byte(to: &mut String, times: usize, byte: u8) -> Result<(), Memory> {
    write!(to, " {times}*{byte:02x}")?;
    Ok(())
}

// Bytes as runs of one value.
fn add_runs(to: &mut String, bytes: &[u8]) -> Result<(), Memory> {
    let mut run = 0usize;
    for k in 0..bytes.len() {
        run = run.saturating_add(1);
        if k + 1 == bytes.len() || bytes[k + 1] != bytes[k] {
            add_byte(to, run, bytes[k])?;
            run = 0;
        }
    }
    Ok(())
}

// How often each value stands among bytes.
fn add_counts(to: &mut String, bytes: &[u8]) -> Result<(), Memory> {
    for value in 0..=255u8 {
        let mut times = 0usize;
        for byte in bytes {
            if *byte == value {
                times = times.saturating_add(1);
            }
        }
        if times > 0 {
            add_byte(to, times, value)?;
        }
    }
    Ok(())
}

// That something is wrong.
fn add_wrong(to: &mut String, right: bool, words: &str) -> Result<(), Memory> {
    if !right {
        to.push_str(words)?;
    }
    Ok(())
}

/// How a play ended.
pub fn add_ending(to: &mut String, report: &Report, ending: Ending) -> Result<(), Memory> {
    match ending {
        Ending::Quiet => to.push_str("quiet")?,
        Ending::Spent => write!(to, "spent {}", report.steps)?,
    }
    Ok(())
}

/// What was sent on the line: as runs, or of several clients how often each byte stands in it.
pub fn add_line(to: &mut String, report: &Report) -> Result<(), Memory> {
    let Some(line) = &report.line else {
        return Ok(());
    };
    add(to, " line ", line.len(), ":")?;
    if report.serial.len() > 1 {
        add_counts(to, line.as_slice())
    } else {
        add_runs(to, line.as_slice())
    }
}

/// What each serial client recorded; that it isn't what the trace gives it is said where the play is
/// quiet.
pub fn add_records(
    alloc: Global,
    to: &mut String,
    report: &Report,
    trace: &Trace,
    ending: Ending,
) -> Result<(), Memory> {
    let clients = report.serial.len();
    for client in 0..clients {
        let record = report.serial.get(client).as_slice();
        add(to, " client ", client, " ")?;
        add(to, "", record.len(), ":")?;
        add_runs(to, record)?;
        let right = ending != Ending::Quiet
            || is_record_right(alloc, trace, record, clients, client, true)?;
        add_wrong(to, right, " and not what it must get")?;
    }
    Ok(())
}

/// How many replies each block client got; that they aren't what the trace gives it is said where
/// the play is quiet.
pub fn add_replies(
    alloc: Global,
    to: &mut String,
    report: &Report,
    plan: &Plan,
    trace: &Trace,
    ending: Ending,
) -> Result<(), Memory>
    requires valid { Valid plan.now }
    requires trace { IsReadFor plan.now trace.now }
{
    for client in 0..report.blk.len() {
        let replies = report.blk.get(client).as_slice();
        add(to, " block ", client, " ")?;
        add(to, "", replies.len(), "")?;
        let right = ending != Ending::Quiet
            || are_replies_right(alloc, plan, trace, replies, client, true)?;
        add_wrong(to, right, " and not what it must get")?;
    }
    Ok(())
}

// What the wire got.
fn add_wire(
    alloc: Global,
    to: &mut String,
    plan: &Plan,
    net: &Net,
    trace: &Trace,
    wire: &FrameLog,
) -> Result<(), Memory> {
    let mut due = 0usize;
    let mut in_order = true;
    for client in 0..net.client.len() {
        let (many, right) = sent(alloc, plan, net, trace, wire, client, None, true)?;
        due = due.saturating_add(many);
        in_order = right && in_order;
    }
    add(to, " wire ", wire.len(), " of ")?;
    add(to, "", due, "")?;
    add_wrong(to, in_order, " and not those")
}

/// What the wire got, and what each network client recorded.
pub fn add_network(
    alloc: Global,
    to: &mut String,
    plan: &Plan,
    report: &Report,
    trace: &Trace,
) -> Result<(), Memory> {
    let (Some(net), Some(wire)) = (&plan.net, &report.wire) else {
        return Ok(());
    };
    add_wire(alloc, to, plan, net, trace, wire)?;
    for client in 0..report.net.len() {
        let record = report.net.get(client);
        let (many, right) = recorded(alloc, net, trace, record, client, true)?;
        add(to, " client ", client, " ")?;
        add(to, "", record.len(), " of ")?;
        add(to, "", many, "")?;
        add_wrong(to, right, " and not those")?;
    }
    Ok(())
}

/// Where the buffers of each pool are, and how many entries were bad.
pub fn add_pools(to: &mut String, report: &Report) -> Result<(), Memory> {
    for pool in report.pools.as_slice() {
        to.push_str(" pool ")?;
        to.push_str(pool.name.as_str())?;
        add(to, " buffers ", pool.buffers as usize, "")?;
        add(to, " queues ", pool.queues as usize, "")?;
        add(to, " hands ", pool.hands as usize, "")?;
        add(to, " lent ", pool.lent as usize, "")?;
    }
    write!(to, " bad {}", report.bad)?;
    Ok(())
}
