//! Short examples of the libraries that read and print texts: each module makes the main calls of
//! one library, or of two, and gives what they come to as a text, which is printed here.
ghost use Rattle.sdf_check.specs.Valid.{Valid};

pub mod description;
mod layout;
mod report;
mod trace;

use cargo_core::Memory;
use description::{MISSPELT, judged, show_description};
use layout::show_layout;
use report::show_report;
use sdf_model::TEXT_MOST;
use sdf_plan::Plan;
use std::rt::Files;
use std::{fs, io};
use trace::show_trace;

// Prints an example under the name of its library.
fn print<R: Print>(rt: &R, name: &str, text: Result<String, Memory>) -> io::Result<()> {
    println!(rt; "# {name}")?;
    match text {
        Ok(text) => rt.print(text.as_str()),
        Err(_) => rt.println("no memory"),
    }
}

// Prints the examples over a plan.
fn print_plan<R: Print + AllocGlobal>(rt: &R, plan: &Plan) -> io::Result<()>
    requires { Valid plan.now }
{
    let alloc = rt.alloc();
    print(rt, "region_layout", show_layout(alloc, plan))?;
    print(
        rt,
        "trace_text",
        show_trace(alloc, plan, "say 0 616263\nin 6465\n"),
    )?;
    print(
        rt,
        "trace_text",
        show_trace(alloc, plan, "say 0 616263\nsay 1 61\n"),
    )
}

/// Prints the examples.
pub fn print_examples<R: Files + Print + AllocGlobal>(rt: &R) -> io::Result<()> {
    let alloc = rt.alloc();
    let text = fs::read_to_string(rt, "serial.toml")?;
    let text = text.as_str();
    print(rt, "sdf_model and sdf_check", show_description(alloc, text))?;
    print(
        rt,
        "sdf_model and sdf_check",
        show_description(alloc, MISSPELT),
    )?;
    if text.len() <= TEXT_MOST
        && let Ok(plan) = judged(alloc, text)
    {
        print_plan(rt, &plan)?;
    }
    print(rt, "report_text", show_report(alloc))
}
