//! The text of a report, which `play` prints.

ghost use Rattle.std.specs.Prelude.{◌≡◌, ◌<◌, ◌≤◌, ◌∷◌, [], ◌++◌, map, drop, length, slice_index};
ghost use Rattle.std.specs.Prelude.{IfOk, OnOk, string_bytes};
ghost use Rattle.hex.specs.Hex.{encode_lower};
ghost use Rattle.report_text.specs.Lines.{text_of};
ghost use Rattle.report_text.specs.Runs.{runs_of, run_text, more_runs_text};
ghost use Rattle.report_text.specs.Reports.{report_text, byte_lines, wire_line, wire_lines};
ghost use Rattle.report_text.specs.Reports.{net_line, net_lines, uart_line, uart_lines};
ghost use Rattle.report_text.specs.Reports.{serial_line, serial_lines, blk_line, blk_lines};
ghost use Rattle.report_text.specs.Reports.{each_numbered, pool_line, reply_line, given_text};
ghost use Rattle.report_text.specs.Reports.{status_text, ending_line, steps_line, bad_line};

use cargo_core::{BlkStatus, Bytes, FrameLog, Memory, Reply, Series};
use expect_core::{Census, Report};
use std::alloc::Global;

// Appends a line, and its end.
fn add_line(to: &mut String, line: &str) -> Result<(), Memory>
    ensures { OnOk result (string_bytes to.new ≡ string_bytes to.old ++ text_of (line.now ∷ [])) }
{
    to.push_str(line)?;
    to.push_str("\n")?;
    Ok(())
}

// Appends a line of bytes in hexadecimal.
fn add_hex(alloc: Global, to: &mut String, bytes: &[u8]) -> Result<(), Memory>
    ensures { OnOk result (string_bytes to.new ≡ string_bytes to.old
        ++ text_of (encode_lower bytes.now ∷ [])) }
{
    let digits = hex::encode(alloc, bytes)?;
    add_line(to, digits.as_str())
}

// Appends a line of bytes, where there are any.
fn add_bytes(alloc: Global, to: &mut String, bytes: &[u8]) -> Result<(), Memory>
    ensures { OnOk result (string_bytes to.new ≡ string_bytes to.old
        ++ text_of (byte_lines bytes.now)) }
{
    if bytes.is_empty() {
        return Ok(());
    }
    add_hex(alloc, to, bytes)
}

/// Appends each frame on a line, in hexadecimal.
pub fn add_frames(alloc: Global, to: &mut String, frames: &FrameLog) -> Result<(), Memory>
    ensures { OnOk result (string_bytes to.new ≡ string_bytes to.old
        ++ text_of (map encode_lower frames.now)) }
{
    for k in 0..frames.len() {
        add_hex(alloc, to, frames.get(k))?;
    }
    Ok(())
}

// Appends how many frames the wire got.
pub fn add_wire_line(to: &mut String, frames: &FrameLog) -> Result<(), Memory>
    ensures { OnOk result (string_bytes to.new ≡ string_bytes to.old
        ++ text_of (wire_line frames.now ∷ [])) }
{
    write!(to, "wire {}\n", frames.len())?;
    Ok(())
}

// Appends how many bytes the serial line got.
pub fn add_uart_line(to: &mut String, bytes: &Bytes) -> Result<(), Memory>
    ensures { OnOk result (string_bytes to.new ≡ string_bytes to.old
        ++ text_of (uart_line bytes.now ∷ [])) }
{
    write!(to, "uart {}\n", bytes.len())?;
    Ok(())
}

// Appends how many frames a network client recorded.
pub fn add_net_line(to: &mut String, c: usize, frames: &FrameLog) -> Result<(), Memory>
    ensures { OnOk result (string_bytes to.new ≡ string_bytes to.old
        ++ text_of (net_line c frames.now ∷ [])) }
{
    write!(to, "net {} frames {}\n", c, frames.len())?;
    Ok(())
}

// Appends how many bytes a serial client recorded.
pub fn add_serial_line(to: &mut String, c: usize, bytes: &Bytes) -> Result<(), Memory>
    ensures { OnOk result (string_bytes to.new ≡ string_bytes to.old
        ++ text_of (serial_line c bytes.now ∷ [])) }
{
    write!(to, "serial {} bytes {}\n", c, bytes.len())?;
    Ok(())
}

// Appends how many responses a block client recorded.
pub fn add_blk_line(to: &mut String, c: usize, replies: &Series<Reply>) -> Result<(), Memory>
    ensures { OnOk result (string_bytes to.new ≡ string_bytes to.old
        ++ text_of (blk_line c replies.now ∷ [])) }
{
    write!(to, "blk {} replies {}\n", c, replies.len())?;
    Ok(())
}

// Appends what the wire got, where there is one.
fn add_wire(alloc: Global, to: &mut String, wire: &Option<FrameLog>) -> Result<(), Memory>
    ensures { OnOk result (string_bytes to.new ≡ string_bytes to.old
        ++ text_of (wire_lines wire.now)) }
{
    if let Some(frames) = wire {
        add_wire_line(to, frames)?;
        add_frames(alloc, to, frames)?;
    }
    Ok(())
}

// Appends what the serial line got, where there is one.
fn add_uart(alloc: Global, to: &mut String, line: &Option<Bytes>) -> Result<(), Memory>
    ensures { OnOk result (string_bytes to.new ≡ string_bytes to.old
        ++ text_of (uart_lines line.now)) }
{
    if let Some(bytes) = line {
        add_uart_line(to, bytes)?;
        add_bytes(alloc, to, bytes.as_slice())?;
    }
    Ok(())
}

// Appends what a network client recorded.
fn add_net_client(alloc: Global, to: &mut String, c: usize, frames: &FrameLog) -> Result<(), Memory>
    ensures { OnOk result (string_bytes to.new ≡ string_bytes to.old
        ++ text_of (net_lines c frames.now)) }
{
    add_net_line(to, c, frames)?;
    add_frames(alloc, to, frames)
}

// Appends what a serial client recorded.
fn add_serial_client(alloc: Global, to: &mut String, c: usize, bytes: &Bytes) -> Result<(), Memory>
    ensures { OnOk result (string_bytes to.new ≡ string_bytes to.old
        ++ text_of (serial_lines c bytes.now)) }
{
    add_serial_line(to, c, bytes)?;
    add_bytes(alloc, to, bytes.as_slice())
}

// The word for a status.
fn status_word(status: BlkStatus) -> &'static str
    ensures { result.now ≡ status_text status }
{
    match status {
        BlkStatus::Ok => "ok",
        BlkStatus::Invalid => "invalid",
        BlkStatus::NoDevice => "no_device",
    }
}

// Appends a run of equal bytes.
fn add_run(alloc: Global, to: &mut String, times: usize, byte: u8) -> Result<(), Memory>
    ensures { OnOk result (string_bytes to.new ≡ string_bytes to.old
        ++ run_text (record { times = times; byte = byte })) }
{
    let digits = hex::encode(alloc, &[byte])?;
    write!(to, "{}*{}", times, digits.as_str())?;
    Ok(())
}

// How many bytes equal to the first one stand at the beginning.
fn first_run(bytes: &[u8]) -> usize
    requires { 0 < length bytes.now }
    ensures within { (0 < result) × (result ≤ length bytes.now) }
    ensures runs { runs_of bytes.now ≡ record { times = result; byte = slice_index bytes.now 0 }
        ∷ runs_of (drop result bytes.now) }
{
    let first = bytes[0];
    let mut times = 1;
    while times < bytes.len() && bytes[times] == first {
        times += 1;
    }
    times
}

// Appends the runs of bytes, each with a comma before it.
fn add_more_runs(alloc: Global, to: &mut String, bytes: &[u8]) -> Result<(), Memory>
    ensures { OnOk result (string_bytes to.new ≡ string_bytes to.old
        ++ more_runs_text (runs_of bytes.now)) }
{
    let mut at = 0;
    while at < bytes.len() {
        let times = first_run(&bytes[at..]);
        to.push_str(",")?;
        add_run(alloc, to, times, bytes[at])?;
        at += times;
    }
    Ok(())
}

// Appends the runs of bytes, joined by commas, behind a space; nothing where there is no byte.
fn add_given(alloc: Global, to: &mut String, bytes: &[u8]) -> Result<(), Memory>
    ensures { OnOk result (string_bytes to.new ≡ string_bytes to.old ++ given_text bytes.now) }
{
    if bytes.is_empty() {
        return Ok(());
    }
    let times = first_run(bytes);
    to.push_str(" ")?;
    add_run(alloc, to, times, bytes[0])?;
    add_more_runs(alloc, to, &bytes[times..])
}

// Appends a response.
fn add_reply(alloc: Global, to: &mut String, reply: &Reply) -> Result<(), Memory>
    ensures { OnOk result (string_bytes to.new ≡ string_bytes to.old
        ++ text_of (reply_line reply.now ∷ [])) }
{
    let status = status_word(reply.resp.status);
    write!(to, "{} {} {}", reply.resp.id, status, reply.resp.count)?;
    add_given(alloc, to, reply.bytes.as_slice())?;
    to.push_str("\n")?;
    Ok(())
}

// Appends what a block client recorded.
fn add_blk_client(
    alloc: Global,
    to: &mut String,
    c: usize,
    replies: &Series<Reply>,
) -> Result<(), Memory>
    ensures { OnOk result (string_bytes to.new ≡ string_bytes to.old
        ++ text_of (blk_lines c replies.now)) }
{
    add_blk_line(to, c, replies)?;
    for k in 0..replies.len() {
        add_reply(alloc, to, replies.get(k))?;
    }
    Ok(())
}

// Appends where the buffers of a pool are.
fn add_pool(to: &mut String, pool: &Census) -> Result<(), Memory>
    ensures { OnOk result (string_bytes to.new ≡ string_bytes to.old
        ++ text_of (pool_line pool.now ∷ [])) }
{
    write!(
        to,
        "pool {} buffers {} queues {}",
        pool.name.as_str(),
        pool.buffers,
        pool.queues
    )?;
    write!(to, " hands {} lent {}\n", pool.hands, pool.lent)?;
    Ok(())
}

// Appends what each network client recorded.
fn add_net(alloc: Global, to: &mut String, clients: &Series<FrameLog>) -> Result<(), Memory>
    ensures { OnOk result (string_bytes to.new ≡ string_bytes to.old
        ++ text_of (each_numbered net_lines 0 clients.now)) }
{
    for k in 0..clients.len() {
        add_net_client(alloc, to, k, clients.get(k))?;
    }
    Ok(())
}

// Appends what each serial client recorded.
fn add_serial(alloc: Global, to: &mut String, clients: &Series<Bytes>) -> Result<(), Memory>
    ensures { OnOk result (string_bytes to.new ≡ string_bytes to.old
        ++ text_of (each_numbered serial_lines 0 clients.now)) }
{
    for k in 0..clients.len() {
        add_serial_client(alloc, to, k, clients.get(k))?;
    }
    Ok(())
}

// Appends what each block client recorded.
fn add_blk(alloc: Global, to: &mut String, clients: &Series<Series<Reply>>) -> Result<(), Memory>
    ensures { OnOk result (string_bytes to.new ≡ string_bytes to.old
        ++ text_of (each_numbered blk_lines 0 clients.now)) }
{
    for k in 0..clients.len() {
        add_blk_client(alloc, to, k, clients.get(k))?;
    }
    Ok(())
}

/// Appends where the buffers of each pool are, a line for each.
pub fn add_pools(to: &mut String, pools: &Series<Census>) -> Result<(), Memory>
    ensures { OnOk result (string_bytes to.new ≡ string_bytes to.old
        ++ text_of (map pool_line pools.now)) }
{
    for k in 0..pools.len() {
        add_pool(to, pools.get(k))?;
    }
    Ok(())
}

/// Appends the two lines with which a report begins: how the play ended, and its steps.
pub fn add_head(to: &mut String, quiet: bool, steps: u64) -> Result<(), Memory>
    ensures { OnOk result (string_bytes to.new ≡ string_bytes to.old
        ++ text_of (ending_line quiet ∷ steps_line steps ∷ [])) }
{
    let ending = if quiet { "quiet" } else { "spent" };
    write!(to, "{}\nsteps {}\n", ending, steps)?;
    Ok(())
}

// Appends the line with which a report ends.
pub fn add_bad(to: &mut String, bad: u64) -> Result<(), Memory>
    ensures { OnOk result (string_bytes to.new ≡ string_bytes to.old
        ++ text_of (bad_line bad ∷ [])) }
{
    write!(to, "bad {}\n", bad)?;
    Ok(())
}

/// The text of a report: how the play ended and its steps, and then, for each class that the
/// description has, what its device and its clients got, where the buffers of each pool are, and
/// what was counted as bad. Bytes print as lower-case hexadecimal. The spellings are this project's
/// own.
pub fn write_report(alloc: Global, report: &Report) -> Result<String, Memory>
    ensures { IfOk result (λ s. string_bytes s ≡ report_text report.now) }
{
    let mut text = String::new(alloc);
    add_head(&mut text, report.quiet, report.steps)?;
    add_wire(alloc, &mut text, &report.wire)?;
    add_net(alloc, &mut text, &report.net)?;
    add_uart(alloc, &mut text, &report.line)?;
    add_serial(alloc, &mut text, &report.serial)?;
    add_blk(alloc, &mut text, &report.blk)?;
    add_pools(&mut text, &report.pools)?;
    add_bad(&mut text, report.bad)?;
    Ok(text)
}
