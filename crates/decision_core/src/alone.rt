//! What the one text of `i2c` and of `switch` decides.
ghost use Rattle.std.specs.Prelude.{◌≡◌, IfOk, ℕ, List};
ghost use Rattle.report_text.specs.Answers.{bad_trace_text};
ghost use Rattle.command_words.specs.Words.{texts_of};
ghost use Rattle.decision_core.specs.Decided.{decision_of};
ghost use Rattle.decision_core.specs.Decisions.{Say, AloneDecides, AsksAlone};
ghost use Rattle.decision_core.specs.Settled.{Settles};

use crate::deciding::{Decided, say_bad_trace, say_too_long};
use crate::shelf_core::{ReadStop, Shelf, read_text};
use crate::{Alone, Status};
use cargo_core::Memory;
use command_words::Schedule;
use i2c_text::{BusFault, read_bus};
use line_text::ports_text::{PortFault, read_ports};
use sdf_model::TEXT_MOST;
use std::alloc::Global;

/// A bus wasn't read.
fn say_unread_bus(alloc: Global, fault: BusFault) -> Result<Decided, Memory>
    ensures { IfOk result (λ d. (line : ℕ) × (fault ≡ BusFault.BadLine line)
        × (decision_of d ≡ Say (Status.BadTrace line) (bad_trace_text line))) }
{
    match fault {
        BusFault::BadLine(line) => say_bad_trace(alloc, line),
        BusFault::Memory(memory) => Err(memory),
    }
}

/// The ports of a switch weren't read.
fn say_unread_ports(alloc: Global, fault: PortFault) -> Result<Decided, Memory>
    ensures { IfOk result (λ d. (line : ℕ) × (fault ≡ PortFault.BadLine line)
        × (decision_of d ≡ Say (Status.BadTrace line) (bad_trace_text line))) }
{
    match fault {
        PortFault::BadLine(line) => say_bad_trace(alloc, line),
        PortFault::Memory(memory) => Err(memory),
    }
}

/// What the bytes of a bus decide.
fn decide_bus(alloc: Global, schedule: Schedule, bytes: &[u8]) -> Result<Decided, Memory>
    ensures { IfOk result (λ d. AloneDecides (Alone.Bus schedule) bytes.now (decision_of d)) }
{
    if bytes.len() > TEXT_MOST {
        return say_too_long(alloc);
    }
    match read_bus(alloc, bytes) {
        Ok(bus) => Ok(Decided::Bus(bus, schedule)),
        Err(fault) => say_unread_bus(alloc, fault),
    }
}

/// What the bytes of the ports of a switch decide.
fn decide_ports(alloc: Global, schedule: Schedule, bytes: &[u8]) -> Result<Decided, Memory>
    ensures { IfOk result (λ d. AloneDecides (Alone.Switch schedule) bytes.now (decision_of d)) }
{
    if bytes.len() > TEXT_MOST {
        return say_too_long(alloc);
    }
    match read_ports(alloc, bytes) {
        Ok(ports) => Ok(Decided::Ports(ports, schedule)),
        Err(fault) => say_unread_ports(alloc, fault),
    }
}

/// What the bytes of a text that is named alone decide.
fn decide_bytes(alloc: Global, asked: Alone, bytes: &[u8]) -> Result<Decided, Memory>
    ensures { IfOk result (λ d. AloneDecides asked bytes.now (decision_of d)) }
{
    match asked {
        Alone::Bus(schedule) => decide_bus(alloc, schedule, bytes),
        Alone::Switch(schedule) => decide_ports(alloc, schedule, bytes),
    }
}

/// What the text that the words name alone decides.
pub fn decide_alone<F: Shelf>(
    alloc: Global,
    shelf: &mut F,
    words: &[String],
    asked: Alone,
) -> Result<Decided, ReadStop>
    requires { (trace : List ℕ) × AsksAlone (texts_of words.now) trace asked }
    ensures { Settles F.text F.left F.opens F.faults F.failed (texts_of words.now) shelf.old
        shelf.new result }
{
    let bytes = read_text(alloc, shelf, words[1].as_str())?;
    Ok(decide_bytes(alloc, asked, bytes.as_slice())?)
}
