//! `trace_text`: what the devices receive and the clients ask for, a line each.

use cargo_core::Memory;
use report_text::write_bad_trace;
use sdf_plan::Plan;
use std::alloc::Global;
use trace_text::{TraceFault, read_trace};

/// Says what a trace gives the serial line and each serial client of a plan, or which line is bad.
pub fn show_trace(alloc: Global, plan: &Plan, lines: &str) -> Result<String, Memory> {
    let trace = match read_trace(alloc, lines.as_bytes(), plan) {
        Ok(trace) => trace,
        Err(TraceFault::BadLine(line)) => return write_bad_trace(alloc, line),
        Err(TraceFault::Memory(memory)) => return Err(memory),
    };
    let mut text = format!(in alloc; "bytes for the line {}\n", trace.input().len())?;
    for client in 0..trace.says.len() {
        let says = trace.says.get(client);
        write!(text, "bytes of client {client} {}\n", says.len())?;
    }
    Ok(text)
}
