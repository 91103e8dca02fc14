//! Reads traces for a description: writes what a trace gives and its budget, or its first bad line.
ghost use Rattle.sdf_check.specs.Valid.{Valid};
ghost use Rattle.trace_text.specs.Traces.{IsReadFor};

use cargo_core::{Act, Ask, Bytes, FrameLog, Memory, Series};
use expect_core::budget;
use report_text::write_bad_trace;
use sdf_plan::Plan;
use std::alloc::Global;
use trace_text::{Trace, TraceFault, read_trace};

// The lines that one line of a row stands for.
fn add_lines(text: &mut String, line: &str) -> Result<(), Memory> {
    match line.split_once(" x ") {
        None => text.push_str(line)?,
        Some((line, times)) => {
            for k in 0..times.parse::<u32>().unwrap_or(0) {
                if k > 0 {
                    text.push_str("\n")?;
                }
                text.push_str(line)?;
            }
        }
    }
    Ok(())
}

// The trace of a row.
fn trace_of(alloc: Global, lines: &str) -> Result<String, Memory> {
    let mut text = String::new(alloc);
    let mut is_first = true;
    for line in lines.split(" | ") {
        if !is_first {
            text.push_str("\n")?;
        }
        add_lines(&mut text, line)?;
        is_first = false;
    }
    Ok(text)
}

// Bytes: their number, and the first four of them.
fn add_bytes(alloc: Global, to: &mut String, bytes: &[u8]) -> Result<(), Memory> {
    write!(to, " {}", bytes.len())?;
    if bytes.is_empty() {
        return Ok(());
    }
    let digits = hex::encode(alloc, &bytes[..bytes.len().min(4)])?;
    write!(to, ":{}", digits.as_str())?;
    Ok(())
}

fn add_frames(alloc: Global, to: &mut String, frames: &FrameLog) -> Result<(), Memory> {
    to.push_str(" (")?;
    for k in 0..frames.len() {
        add_bytes(alloc, to, frames.get(k))?;
    }
    to.push_str(" )")?;
    Ok(())
}

fn add_asks(to: &mut String, asks: &Series<Ask>) -> Result<(), Memory> {
    to.push_str(" (")?;
    for k in 0..asks.len() {
        let ask = asks.get(k);
        write!(to, " {} {}", ask.code.number(), ask.block)?;
        write!(to, " {} {}", ask.count, ask.fill.len())?;
    }
    to.push_str(" )")?;
    Ok(())
}

fn add_sends(alloc: Global, to: &mut String, sends: &Series<FrameLog>) -> Result<(), Memory> {
    to.push_str(" sends")?;
    for k in 0..sends.len() {
        add_frames(alloc, to, sends.get(k))?;
    }
    Ok(())
}

fn add_says(alloc: Global, to: &mut String, says: &Series<Bytes>) -> Result<(), Memory> {
    to.push_str(" says")?;
    for k in 0..says.len() {
        add_bytes(alloc, to, says.get(k).as_slice())?;
    }
    Ok(())
}

fn add_requests(to: &mut String, asks: &Series<Series<Ask>>) -> Result<(), Memory> {
    to.push_str(" asks")?;
    for k in 0..asks.len() {
        add_asks(to, asks.get(k))?;
    }
    Ok(())
}

// Acts: their number, and the first four of them.
fn add_acts(to: &mut String, acts: &[Act]) -> Result<(), Memory> {
    write!(to, " ( {}", acts.len())?;
    for act in &acts[..acts.len().min(4)] {
        write!(to, " {act:?}")?;
    }
    to.push_str(" )")?;
    Ok(())
}

// The acts of each client of a class.
fn add_clients(to: &mut String, clients: &Series<Series<Act>>) -> Result<(), Memory> {
    for acts in clients.as_slice() {
        add_acts(to, acts.as_slice())?;
    }
    Ok(())
}

// The acts of each client of each class.
fn add_rogues(to: &mut String, trace: &Trace) -> Result<(), Memory> {
    to.push_str(" acts net")?;
    add_clients(to, &trace.net_acts)?;
    to.push_str(" serial")?;
    add_clients(to, &trace.serial_acts)?;
    to.push_str(" blk")?;
    add_clients(to, &trace.blk_acts)
}

// Whether a client has acts.
fn has_acts(lists: &Series<Series<Act>>) -> bool {
    lists.as_slice().iter().any(|acts| !acts.is_empty())
}

// What a trace gives, and its budget.
fn describe(alloc: Global, plan: &Plan, trace: &Trace) -> Result<String, Memory>
    requires valid { Valid plan.now }
    requires read { IsReadFor plan.now trace.now }
{
    let mut line = String::from_str(alloc, "frames")?;
    add_frames(alloc, &mut line, trace.frames())?;
    line.push_str(" input")?;
    add_bytes(alloc, &mut line, trace.input())?;
    add_sends(alloc, &mut line, &trace.sends)?;
    add_says(alloc, &mut line, &trace.says)?;
    add_requests(&mut line, &trace.asks)?;
    line.push_str(" image")?;
    add_bytes(alloc, &mut line, trace.image())?;
    if has_acts(&trace.net_acts) || has_acts(&trace.serial_acts) || has_acts(&trace.blk_acts) {
        add_rogues(&mut line, trace)?;
    }
    write!(line, " budget {}\n", budget(plan, trace))?;
    Ok(line)
}

/// What is answered at the lines of a trace.
pub fn write_trace(alloc: Global, plan: &Plan, lines: &str) -> Result<String, Memory>
    requires { Valid plan.now }
{
    let text = trace_of(alloc, lines)?;
    match read_trace(alloc, text.as_bytes(), plan) {
        Ok(trace) => describe(alloc, plan, &trace),
        Err(TraceFault::BadLine(line)) => write_bad_trace(alloc, line),
        Err(TraceFault::Memory(memory)) => Err(memory),
    }
}
