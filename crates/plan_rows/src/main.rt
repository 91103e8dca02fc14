//! Judges and lays out descriptions that are edited from others, and reads traces for them. A row
//! of the input names a file with a description, or its layout as `layout of FILE`, or its plan as
//! `plan of FILE`, and may replace fragments of it, each as ` | OLD => NEW`. For each row the
//! program writes what an accepted description has, or its layout, or the parts of its plan, or the
//! rule that a refused one breaks and the place.
//!
//! A row `trace of FILE | LINE | LINE` has the lines of a trace, of which the last doesn't end;
//! `LINE x N` stands for N such lines. What the trace gives is written with its budget, or its first
//! bad line.
//!
//! Behind the rows come the examples of the libraries that read and print texts.
#![tactic(auto)]

ghost use Rattle.sdf_check.specs.Valid.{Valid};

mod examples;
mod traces;

use cargo_core::Memory;
use examples::description::judged;
use examples::print_examples;
use region_layout::lay_out;
use report_text::{write_accepted, write_layout, write_refused, write_too_long};
use sdf_model::TEXT_MOST;
use sdf_plan::{Plan, SdfFault};
use std::alloc::{AllocError, Global};
use std::{fs, io};
use traces::write_trace;

/// What is written of an accepted description.
#[derive(Clone, Copy)]
enum Told {
    Accepted,
    Layout,
    Plan,
}

// The parts of a plan, a line each.
fn write_plan(alloc: Global, plan: &Plan) -> Result<String, Memory> {
    let mut text = format!(in alloc; "version {}\n", plan.version)?;
    for region in plan.memory_region.as_slice() {
        write!(text, "{region:?}\n")?;
    }
    for domain in plan.protection_domain.as_slice() {
        write!(text, "{domain:?}\n")?;
    }
    for channel in plan.channel.as_slice() {
        write!(text, "{channel:?}\n")?;
    }
    write!(text, "net {:?}\n", plan.net)?;
    write!(text, "serial {:?}\n", plan.serial)?;
    write!(text, "blk {:?}\n", plan.blk)?;
    Ok(text)
}

// What is written of a valid plan.
fn accepted(alloc: Global, plan: &Plan, told: Told) -> Result<String, Memory>
    requires { Valid plan.now }
{
    match told {
        Told::Accepted => write_accepted(alloc, plan),
        Told::Layout => {
            let layout = lay_out(alloc, plan)?;
            write_layout(alloc, plan, &layout)
        }
        Told::Plan => write_plan(alloc, plan),
    }
}

// What is written of a description.
fn answer(alloc: Global, text: &str, told: Told) -> Result<String, Memory> {
    if text.len() > TEXT_MOST {
        return write_too_long(alloc);
    }
    match judged(alloc, text) {
        Ok(plan) => accepted(alloc, &plan, told),
        Err(SdfFault::Refused(refusal)) => write_refused(alloc, &refusal),
        Err(SdfFault::Memory(memory)) => Err(memory),
    }
}

// What is written of a description and the lines of a trace for it.
fn traced(alloc: Global, text: &str, lines: &str) -> Result<String, Memory> {
    if text.len() > TEXT_MOST {
        return write_too_long(alloc);
    }
    match judged(alloc, text) {
        Ok(plan) => write_trace(alloc, &plan, lines),
        Err(SdfFault::Refused(refusal)) => write_refused(alloc, &refusal),
        Err(SdfFault::Memory(memory)) => Err(memory),
    }
}

// A text with the fragment replaced that an edit names; `None` where it doesn't stand there exactly
// once.
fn edited(alloc: Global, text: &str, edit: &str) -> Result<Option<String>, AllocError> {
    let Some((old, new)) = edit.split_once(" => ") else {
        return Ok(None);
    };
    let Some((before, after)) = text.split_once(old) else {
        return Ok(None);
    };
    if after.contains(old) {
        return Ok(None);
    }
    Ok(Some(format!(in alloc; "{before}{new}{after}")?))
}

// The text that a row's edits make of another.
fn edited_by(alloc: Global, text: String, edits: &str) -> Result<Option<String>, AllocError> {
    let mut text = text;
    for edit in edits.split(" | ") {
        match edited(alloc, text.as_str(), edit)? {
            Some(next) => text = next,
            None => return Ok(None),
        }
    }
    Ok(Some(text))
}

// Prints an answer.
fn print(rt: &HostRuntime, answer: Result<String, Memory>) -> io::Result<()> {
    match answer {
        Ok(lines) => rt.print(lines),
        Err(_) => rt.println("no memory"),
    }
}

// Prints what is answered at a row of a trace.
fn print_traced(rt: &HostRuntime, row: &str) -> io::Result<()> {
    let Some((name, lines)) = row.split_once(" | ") else {
        return rt.println("no trace");
    };
    let text = fs::read_to_string(rt, name)?;
    print(rt, traced(rt.alloc(), text.as_str(), lines))
}

// Prints the answer at a row.
fn print_row(rt: &HostRuntime, row: &str) -> io::Result<()> {
    if let Some(row) = row.strip_prefix("trace of ") {
        return print_traced(rt, row);
    }
    let (name, edits) = match row.split_once(" | ") {
        Some((name, edits)) => (name, Some(edits)),
        None => (row, None),
    };
    let (file, told) = if let Some(file) = name.strip_prefix("layout of ") {
        (file, Told::Layout)
    } else if let Some(file) = name.strip_prefix("plan of ") {
        (file, Told::Plan)
    } else {
        (name, Told::Accepted)
    };
    let text = fs::read_to_string(rt, file)?;
    let changed = match edits {
        Some(edits) => edited_by(rt.alloc(), text, edits)?,
        None => Some(text),
    };
    let Some(text) = changed else {
        return rt.println("a fragment doesn't stand there once");
    };
    print(rt, answer(rt.alloc(), text.as_str(), told))
}

fn main(rt: HostRuntime) -> io::Result<()> {
    for line in rt.lines(rt.alloc()) {
        print_row(&rt, line?.as_str())?;
    }
    print_examples(&rt)
}
