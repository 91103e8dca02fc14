//! The text of what a play of a bus reports.

ghost use Rattle.std.specs.Prelude.{◌≡◌, ◌∷◌, [], ◌++◌, IfOk, OnOk, string_bytes};
ghost use Rattle.report_text.specs.Lines.{text_of};
ghost use Rattle.report_text.specs.Reports.{each_numbered};
ghost use Rattle.i2c_play.specs.Texts.{status_text, given_text, reply_line, replies_line};
ghost use Rattle.i2c_play.specs.Texts.{replies_lines, bus_text};

use cargo_core::{Memory, Series};
use i2c_text::{BusReply, BusReport, BusStatus};
use report_text::{add_head, add_pools};
use std::alloc::Global;

// The word for a status.
fn status_word(status: BusStatus) -> &'static str
    ensures { result.now ≡ status_text status }
{
    match status {
        BusStatus::Ok => "ok",
        BusStatus::Taken => "taken",
        BusStatus::Unclaimed => "unclaimed",
        BusStatus::NoAck => "no_ack",
    }
}

// Appends the bytes that a read gave, behind a space; nothing where there is no byte.
fn add_given(alloc: Global, to: &mut String, bytes: &[u8]) -> Result<(), Memory>
    ensures { OnOk result (string_bytes to.new ≡ string_bytes to.old ++ given_text bytes.now) }
{
    if bytes.is_empty() {
        return Ok(());
    }
    let digits = hex::encode(alloc, bytes)?;
    to.push_str(" ")?;
    to.push_str(digits.as_str())?;
    Ok(())
}

// Appends the answer to a client's request of a number.
fn add_reply(alloc: Global, to: &mut String, k: usize, reply: &BusReply) -> Result<(), Memory>
    ensures { OnOk result (string_bytes to.new ≡ string_bytes to.old
        ++ text_of (reply_line k reply.now ∷ [])) }
{
    write!(to, "{} {}", k, status_word(reply.status))?;
    add_given(alloc, to, reply.bytes.as_slice())?;
    to.push_str("\n")?;
    Ok(())
}

// Appends how many of a client's requests were answered.
fn add_count(to: &mut String, c: usize, replies: &Series<BusReply>) -> Result<(), Memory>
    ensures { OnOk result (string_bytes to.new ≡ string_bytes to.old
        ++ text_of (replies_line c replies.now ∷ [])) }
{
    write!(to, "i2c {} replies {}\n", c, replies.len())?;
    Ok(())
}

// Appends the answers to a client's requests.
fn add_replies(
    alloc: Global,
    to: &mut String,
    c: usize,
    replies: &Series<BusReply>,
) -> Result<(), Memory>
    ensures { OnOk result (string_bytes to.new ≡ string_bytes to.old
        ++ text_of (replies_lines c replies.now)) }
{
    add_count(to, c, replies)?;
    for k in 0..replies.len() {
        add_reply(alloc, to, k, replies.get(k))?;
    }
    Ok(())
}

// Appends the answers to the requests of each client.
fn add_clients(
    alloc: Global,
    to: &mut String,
    clients: &Series<Series<BusReply>>,
) -> Result<(), Memory>
    ensures { OnOk result (string_bytes to.new ≡ string_bytes to.old
        ++ text_of (each_numbered replies_lines 0 clients.now)) }
{
    for c in 0..clients.len() {
        add_replies(alloc, to, c, clients.get(c))?;
    }
    Ok(())
}

/// The text of what a play of a bus reports: how it ended and its steps, for each client its
/// answers, a line each, and where the buffers of each client's pool are. Bytes print as lower-case
/// hexadecimal. The spellings are this project's own.
pub fn write_bus(alloc: Global, report: &BusReport) -> Result<String, Memory>
    ensures { IfOk result (λ s. string_bytes s ≡ bus_text report.now) }
{
    let mut text = String::new(alloc);
    add_head(&mut text, report.quiet, report.steps)?;
    add_clients(alloc, &mut text, &report.replies)?;
    add_pools(&mut text, &report.pools)?;
    Ok(text)
}
