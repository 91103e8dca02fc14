//! The summary of a report, which `gen` prints.

ghost use Rattle.std.specs.Prelude.{◌≡◌, ◌++◌, IfOk, OnOk, string_bytes};
ghost use Rattle.report_text.specs.Lines.{text_of};
ghost use Rattle.report_text.specs.Reports.{summary_text, line_or_none, one_numbered, wire_line};
ghost use Rattle.report_text.specs.Reports.{net_line, uart_line, serial_line, blk_line};

use crate::report::{
    add_bad, add_blk_line, add_head, add_net_line, add_pools, add_serial_line, add_uart_line,
    add_wire_line,
};
use cargo_core::{Bytes, FrameLog, Memory, Reply, Series};
use expect_core::Report;
use std::alloc::Global;

// Appends how many frames the wire got, where there is one.
fn add_wire(to: &mut String, wire: &Option<FrameLog>) -> Result<(), Memory>
    ensures { OnOk result (string_bytes to.new ≡ string_bytes to.old
        ++ text_of (line_or_none wire_line wire.now)) }
{
    match wire {
        Some(frames) => add_wire_line(to, frames),
        None => Ok(()),
    }
}

// Appends how many bytes the serial line got, where there is one.
fn add_uart(to: &mut String, line: &Option<Bytes>) -> Result<(), Memory>
    ensures { OnOk result (string_bytes to.new ≡ string_bytes to.old
        ++ text_of (line_or_none uart_line line.now)) }
{
    match line {
        Some(bytes) => add_uart_line(to, bytes),
        None => Ok(()),
    }
}

// Appends how many frames each network client recorded.
fn add_net(to: &mut String, clients: &Series<FrameLog>) -> Result<(), Memory>
    ensures { OnOk result (string_bytes to.new ≡ string_bytes to.old
        ++ text_of (one_numbered net_line 0 clients.now)) }
{
    for k in 0..clients.len() {
        add_net_line(to, k, clients.get(k))?;
    }
    Ok(())
}

// Appends how many bytes each serial client recorded.
fn add_serial(to: &mut String, clients: &Series<Bytes>) -> Result<(), Memory>
    ensures { OnOk result (string_bytes to.new ≡ string_bytes to.old
        ++ text_of (one_numbered serial_line 0 clients.now)) }
{
    for k in 0..clients.len() {
        add_serial_line(to, k, clients.get(k))?;
    }
    Ok(())
}

// Appends how many responses each block client recorded.
fn add_blk(to: &mut String, clients: &Series<Series<Reply>>) -> Result<(), Memory>
    ensures { OnOk result (string_bytes to.new ≡ string_bytes to.old
        ++ text_of (one_numbered blk_line 0 clients.now)) }
{
    for k in 0..clients.len() {
        add_blk_line(to, k, clients.get(k))?;
    }
    Ok(())
}

/// The text of a report without the lines of frames, bytes and responses: how the play ended and
/// its steps, how much each device and client of the classes got, where the buffers of each pool
/// are, and what was counted as bad. The spellings are this project's own.
pub fn write_summary(alloc: Global, report: &Report) -> Result<String, Memory>
    ensures { IfOk result (λ s. string_bytes s ≡ summary_text report.now) }
{
    let mut text = String::new(alloc);
    add_head(&mut text, report.quiet, report.steps)?;
    add_wire(&mut text, &report.wire)?;
    add_net(&mut text, &report.net)?;
    add_uart(&mut text, &report.line)?;
    add_serial(&mut text, &report.serial)?;
    add_blk(&mut text, &report.blk)?;
    add_pools(&mut text, &report.pools)?;
    add_bad(&mut text, report.bad)?;
    Ok(text)
}
